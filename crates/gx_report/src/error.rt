// The text of a refused statement.
ghost use Rattle.std.specs.Prelude.{◌≡◌, ◌++◌, OnOk};
ghost use Rattle.gx_report.specs.Error.{error_text, journal_text, numbered_text, restarted_text, row_text, serialization_text, victim_text};

use crate::words::push_count_behind;
use gx_ids::{Gxid, Mem, Node, Rid};
use gx_store::Refused;
use gx_text::push_bytes;

// A number between two texts.
fn push_numbered(text: &mut Vec<u8>, before: &[u8], number: u64, behind: &[u8]) -> Mem<()>
    ensures { OnOk result (text.new.items ≡ text.old.items ++ numbered_text before.now number behind.now) }
{
    push_count_behind(text, before, u128::from(number))?;
    push_bytes(text, behind)
}

// A row's identity behind a text.
fn push_row_of(text: &mut Vec<u8>, before: &[u8], rid: Rid) -> Mem<()>
    ensures { OnOk result (text.new.items ≡ text.old.items ++ row_text before.now rid) }
{
    push_count_behind(text, before, u128::from(rid.gxid.0))?;
    push_count_behind(text, b".", u128::from(rid.cid.0))?;
    push_count_behind(text, b".", u128::from(rid.ordinal))
}

fn push_serialization(text: &mut Vec<u8>, rid: Rid, newer: Gxid) -> Mem<()>
    ensures { OnOk result (text.new.items ≡ text.old.items ++ serialization_text rid newer) }
{
    push_row_of(text, b"ERROR 1 serialization row ", rid)?;
    push_numbered(text, b" changed by ", newer.0, b"\n")
}

fn push_victim(text: &mut Vec<u8>, round: u64) -> Mem<()>
    ensures { OnOk result (text.new.items ≡ text.old.items ++ victim_text round) }
{
    push_numbered(text, b"ERROR 2 victim of round ", round, b"\n")
}

fn push_journal(text: &mut Vec<u8>, node: Node) -> Mem<()>
    ensures { OnOk result (text.new.items ≡ text.old.items ++ journal_text node) }
{
    push_numbered(
        text,
        b"ERROR 6 journal of node ",
        u64::from(node.0),
        b" failed\n",
    )
}

fn push_restarted(text: &mut Vec<u8>, segment: Node) -> Mem<()>
    ensures { OnOk result (text.new.items ≡ text.old.items ++ restarted_text segment) }
{
    push_numbered(
        text,
        b"ERROR 8 segment ",
        u64::from(segment.0),
        b" restarted\n",
    )
}

/// Adds the line that tells why a statement is refused.
pub fn push_error(text: &mut Vec<u8>, refused: Refused) -> Mem<()>
    ensures { OnOk result (text.new.items ≡ text.old.items ++ error_text refused) }
{
    match refused {
        Refused::Serialization(rid, newer) => push_serialization(text, rid, newer),
        Refused::Victim(round) => push_victim(text, round),
        Refused::Overflow => push_bytes(text, b"ERROR 3 overflow\n"),
        Refused::DivisionByZero => push_bytes(text, b"ERROR 4 division by zero\n"),
        Refused::InFailedBlock => push_bytes(text, b"ERROR 5 block has failed\n"),
        Refused::JournalFault(node) => push_journal(text, node),
        Refused::NotInBlock => push_bytes(text, b"ERROR 7 not in a block\n"),
        Refused::Restarted(segment) => push_restarted(text, segment),
    }
}
