// Slots that are asked for, taken and given back.
ghost use Rattle.std.specs.Prelude.{◌≡◌, ◌++◌, ◌∷◌, [], OnOk};
ghost use Rattle.gx_store.specs.Groups.{asking, giving, open_after, opener, slots_by, taking, without};

use gx_groups::Groups;
use gx_ids::{Gxid, Mem, SessionId};
use gx_store::{Mark, Opened};

// A session asks, unless it asks already or holds a slot.
pub(crate) fn ask(groups: &mut Groups, session: SessionId)
    ensures { groups.new ≡ asking groups.old session }
{
    if groups.knows(session) && !groups.asks(session) && !groups.holds(session) {
        groups.ask(session);
    }
}

// It takes a slot where it may.
fn take(groups: &mut Groups, session: SessionId)
    ensures { groups.new ≡ taking groups.old session }
{
    if groups.may(session) {
        groups.take(session);
    }
}

// It gives back the slot that it holds.
fn give(groups: &mut Groups, session: Option<SessionId>)
    ensures { groups.new ≡ giving groups.old session }
{
    if let Some(session) = session {
        if groups.holds(session) {
            groups.give(session);
        }
    }
}

// The session of an open transaction.
fn opener_of(begun: &[Opened], gxid: Gxid) -> Option<SessionId>
    ensures { result ≡ opener begun.now gxid }
{
    for opened in begun {
        if opened.gxid == gxid {
            return Some(opened.session);
        }
    }
    None
}

// An open transaction ends.
fn end(groups: &mut Groups, begun: &mut Vec<Opened>, gxid: Gxid)
    ensures groups { groups.new ≡ giving groups.old (opener begun.old.items gxid) }
    ensures begun { begun.new.items ≡ without gxid begun.old.items }
{
    give(groups, opener_of(begun.as_slice(), gxid));
    take_out(begun, gxid);
}

fn take_out(begun: &mut Vec<Opened>, gxid: Gxid)
    ensures { begun.new.items ≡ without gxid begun.old.items }
{
    begun.retain(|opened| opened.gxid != gxid);
}

fn begin(groups: &mut Groups, begun: &mut Vec<Opened>, opened: Opened) -> Mem<()>
    ensures groups { groups.new ≡ taking groups.old opened.session }
    ensures begun { OnOk result (begun.new.items ≡ begun.old.items ++ opened ∷ []) }
{
    take(groups, opened.session);
    begun.push(opened)?;
    Ok(())
}

// A slot is taken with a transaction's beginning, and given back with its end.
pub(crate) fn through_mark(groups: &mut Groups, begun: &mut Vec<Opened>, mark: &Mark) -> Mem<()>
    ensures groups { OnOk result (groups.new ≡ slots_by begun.old.items groups.old mark.now) }
    ensures begun { OnOk result (begun.new.items ≡ open_after begun.old.items mark.now) }
{
    match mark {
        Mark::Start { gxid, session } => begin(
            groups,
            begun,
            Opened {
                gxid: *gxid,
                session: *session,
            },
        ),
        Mark::Commit { gxid } => {
            end(groups, begun, *gxid);
            Ok(())
        }
        Mark::Abort { gxid } => {
            end(groups, begun, *gxid);
            Ok(())
        }
        _ => Ok(()),
    }
}
