// A journal item as bytes.
ghost use Rattle.std.specs.Prelude.{◌≡◌, ◌++◌, OnOk, IfOk, codes};
ghost use Rattle.std.specs.Fmt.{decimal};
ghost use Rattle.gx_ids.specs.Rid.{text_of};
ghost use Rattle.gx_msg.specs.ItemBytes.{bytes_of_value, bytes_of_row, bytes_of_image, line_of_kept, lines_of_rows, bytes_of_item};

use crate::item::{JournalItem, Kept};
use gx_ids::{Gxid, Mem, Rid};
use gx_text::{push_byte, push_bytes, push_count, push_integer, push_quoted};
use gx_tree::{Row, Value};
use std::alloc::Global;

fn push_value(text: &mut Vec<u8>, value: &Value) -> Mem<()>
    ensures { OnOk result (text.new.items ≡ text.old.items ++ bytes_of_value value.now) }
{
    match value {
        Value::Int(number) => push_integer(text, i128::from(*number)),
        Value::Text(bytes) => push_quoted(text, bytes.as_slice()),
    }
}

fn push_row(text: &mut Vec<u8>, values: &[Value]) -> Mem<()>
    ensures { OnOk result (text.new.items ≡ text.old.items ++ bytes_of_row values.now) }
{
    let [first, others @ ..] = values else {
        return Ok(());
    };
    push_value(text, first)?;
    for value in others {
        push_byte(text, b'|')?;
        push_value(text, value)?;
    }
    Ok(())
}

/// Adds a row's image: its values, or that it is gone.
pub fn push_image(text: &mut Vec<u8>, image: &Option<Row>) -> Mem<()>
    ensures { OnOk result (text.new.items ≡ text.old.items ++ bytes_of_image image.now) }
{
    match image {
        None => push_bytes(text, b"gone"),
        Some(row) => push_row(text, row.as_slice()),
    }
}

fn push_rid(text: &mut Vec<u8>, rid: &Rid) -> Mem<()>
    ensures { OnOk result (text.new.items ≡ text.old.items ++ text_of rid.now) }
{
    push_count(text, u128::from(rid.gxid.0))?;
    push_byte(text, b'.')?;
    push_count(text, u128::from(rid.cid.0))?;
    push_byte(text, b'.')?;
    push_count(text, u128::from(rid.ordinal))
}

fn push_kept(text: &mut Vec<u8>, kept: &Kept) -> Mem<()>
    ensures { OnOk result (text.new.items ≡ text.old.items ++ line_of_kept kept.now) }
{
    push_rid(text, &kept.rid)?;
    push_byte(text, b' ')?;
    push_count(text, u128::from(kept.table.0))?;
    push_byte(text, b' ')?;
    push_image(text, &kept.image)?;
    push_byte(text, b'\n')
}

fn push_rows(text: &mut Vec<u8>, gxid: Gxid, rows: &[Kept]) -> Mem<()>
    ensures { OnOk result (text.new.items ≡ text.old.items ++ lines_of_rows gxid rows.now) }
{
    push_count(text, u128::from(gxid.0))?;
    push_byte(text, b' ')?;
    push_count(text, rows.len() as u128)?;
    push_byte(text, b'\n')?;
    for kept in rows {
        push_kept(text, kept)?;
    }
    Ok(())
}

fn push_gxid(text: &mut Vec<u8>, gxid: Gxid) -> Mem<()>
    ensures { OnOk result (text.new.items ≡ text.old.items ++ decimal gxid.0 ++ codes "\n") }
{
    push_count(text, u128::from(gxid.0))?;
    push_byte(text, b'\n')
}

fn push_item(text: &mut Vec<u8>, item: &JournalItem) -> Mem<()>
    ensures { OnOk result (text.new.items ≡ text.old.items ++ bytes_of_item item.now) }
{
    match item {
        JournalItem::Prepare(gxid, rows) => {
            push_bytes(text, b"prepare ")?;
            push_rows(text, *gxid, rows.as_slice())
        }
        JournalItem::Commit(gxid, rows) => {
            push_bytes(text, b"commit ")?;
            push_rows(text, *gxid, rows.as_slice())
        }
        JournalItem::Finish(gxid) => {
            push_bytes(text, b"finish ")?;
            push_gxid(text, *gxid)
        }
        JournalItem::Decide(gxid) => {
            push_bytes(text, b"decide ")?;
            push_gxid(text, *gxid)
        }
        JournalItem::Abort(gxid) => {
            push_bytes(text, b"abort ")?;
            push_gxid(text, *gxid)
        }
        JournalItem::Forget(gxid) => {
            push_bytes(text, b"forget ")?;
            push_gxid(text, *gxid)
        }
    }
}

// The room that most items take: for the item's line, and for the line of each row.
const LINE_ROOM: usize = 16;

const ROW_ROOM: usize = 24;

fn room_for(item: &JournalItem) -> usize {
    let rows = match item {
        JournalItem::Prepare(_, rows) | JournalItem::Commit(_, rows) => rows.len(),
        JournalItem::Finish(_)
        | JournalItem::Decide(_)
        | JournalItem::Abort(_)
        | JournalItem::Forget(_) => 0,
    };
    LINE_ROOM.saturating_add(rows.saturating_mul(ROW_ROOM))
}

/// A journal item as bytes: a line for the item, and one for each of its rows.
pub fn item_bytes(alloc: Global, item: &JournalItem) -> Mem<Vec<u8>>
    ensures { IfOk result (λ bytes. bytes.items ≡ bytes_of_item item.now) }
{
    let mut bytes = Vec::with_capacity(alloc, room_for(item))?;
    push_item(&mut bytes, item)?;
    Ok(bytes)
}
