// Items for the journal.
ghost use Rattle.std.specs.Prelude.{◌≡◌, ◌++◌, Some, IfOk, OnOk, OnErr, codes};
ghost use Rattle.gx_msg.specs.ItemBytes.{bytes_of_item};
ghost use Rattle.gx_outside.specs.Shelves.{HasKept};
ghost use Rattle.gx_node.specs.Orders.{Took};
ghost use Rattle.gx_node.specs.Pledges.{item_of, word_of};

use crate::written::Written;
use gx_ids::{Gxid, Mem, OutOfMemory};
use gx_msg::{JournalItem, item_bytes};
use gx_outside::{AppendFault, Journal};
use gx_text::{push_byte, push_bytes, push_count};
use std::alloc::Global;

/// With which word an item of rows begins.
#[derive(Clone, Copy)]
pub(crate) enum Heading {
    Prepare,
    Commit,
}

// The word with which an item begins.
fn push_word(text: &mut Vec<u8>, heading: Heading) -> Mem<()>
    ensures { OnOk result (text.new.items ≡ text.old.items ++ word_of heading) }
{
    match heading {
        Heading::Prepare => push_bytes(text, b"prepare "),
        Heading::Commit => push_bytes(text, b"commit "),
    }
}

fn push_item<W: Written>(text: &mut Vec<u8>, heading: Heading, gxid: Gxid, rows: &W) -> Mem<()>
    ensures { OnOk result (text.new.items ≡ text.old.items ++ bytes_of_item (item_of heading gxid (W.rows rows.now))) }
{
    push_word(text, heading)?;
    push_count(text, u128::from(gxid.0))?;
    push_byte(text, b' ')?;
    push_count(text, rows.count() as u128)?;
    push_byte(text, b'\n')?;
    rows.push_lines(text)
}

// The room that most items take: for the item's line, and for the line of each row.
const LINE_ROOM: usize = 16;

const ROW_ROOM: usize = 24;

// The item of rows that are promised or committed.
fn rows_item<W: Written>(alloc: Global, heading: Heading, gxid: Gxid, rows: &W) -> Mem<Vec<u8>>
    ensures { IfOk result (λ bytes. bytes.items ≡ bytes_of_item (item_of heading gxid (W.rows rows.now))) }
{
    let room = LINE_ROOM.saturating_add(rows.count().saturating_mul(ROW_ROOM));
    let mut bytes = Vec::with_capacity(alloc, room)?;
    push_item(&mut bytes, heading, gxid, rows)?;
    Ok(bytes)
}

// Appends the item of these rows, and says whether the journal failed.
pub(crate) fn append_rows<J: Journal, W: Written>(
    alloc: Global,
    heading: Heading,
    gxid: Gxid,
    rows: &W,
    journal: &mut J,
) -> Mem<bool>
    ensures took { IfOk result (λ fails. Took (J.shelf journal.old) (J.shelf journal.new) fails (Some (item_of heading gxid (W.rows rows.now)))) }
    ensures kept { OnErr result (HasKept (J.shelf journal.old) (J.shelf journal.new)) }
{
    let bytes = rows_item(alloc, heading, gxid, rows)?;
    match journal.append(bytes) {
        Ok(()) => Ok(false),
        Err(AppendFault::Failed) => Ok(true),
        Err(AppendFault::OutOfMemory) => Err(OutOfMemory),
    }
}

// Appends an item, and says whether the journal failed.
pub(crate) fn append<J: Journal>(alloc: Global, item: JournalItem, journal: &mut J) -> Mem<bool>
    ensures took { IfOk result (λ fails. Took (J.shelf journal.old) (J.shelf journal.new) fails (Some item)) }
    ensures kept { OnErr result (HasKept (J.shelf journal.old) (J.shelf journal.new)) }
{
    let bytes = item_bytes(alloc, &item);
    drop(item);
    let bytes = bytes?;
    match journal.append(bytes) {
        Ok(()) => Ok(false),
        Err(AppendFault::Failed) => Ok(true),
        Err(AppendFault::OutOfMemory) => Err(OutOfMemory),
    }
}
