// Whether a round of the detector has named a transaction.
ghost use Rattle.std.specs.Prelude.{◌≡◌, ◌↔◌, ℕ, Contains, IsTrue};
ghost use Rattle.gx_store.specs.Refusals.{IsNamed};
ghost use Rattle.gx_legal.specs.Causes.{IsAmong, Names, NamesAt};

use gx_ids::Gxid;
use gx_store::Mark;
use gx_waits::Verdict;

fn is_victim(victims: &[Gxid], gxid: Gxid) -> bool
    ensures { IsTrue result ↔ Contains victims.now gxid }
{
    victims.contains(&gxid)
}

fn is_among(verdict: &Verdict, gxid: Gxid) -> bool
    ensures { IsTrue result ↔ IsAmong gxid verdict.now }
{
    match verdict {
        Verdict::Victims(victims) => is_victim(victims.as_slice(), gxid),
        _ => false,
    }
}

fn names(mark: &Mark, round: u64, gxid: Gxid) -> bool
    ensures { IsTrue result ↔ Names round gxid mark.now }
{
    match mark {
        Mark::Recheck {
            round: ended,
            own: _,
            verdict,
        } => *ended == round && is_among(verdict, gxid),
        _ => false,
    }
}

fn names_among(marks: &[Mark], round: u64, gxid: Gxid) -> bool
    ensures { IsTrue result ↔ ((place : ℕ) × NamesAt round gxid marks.now place) }
{
    for mark in marks {
        if names(mark, round, gxid) {
            return true;
        }
    }
    false
}

/// Whether the round has named the transaction.
pub fn is_named(marks: &[Mark], round: u64, gxid: Gxid) -> bool
    ensures { IsTrue result ↔ IsNamed marks.now round gxid }
{
    let is = names_among(marks, round, gxid);
    is
}
