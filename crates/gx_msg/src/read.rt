// Reads a journal item back.
ghost use Rattle.std.specs.Prelude.{◌≡◌, Ok};
ghost use Rattle.gx_msg.specs.ItemBytes.{bytes_of_item};
ghost use Rattle.gx_msg.specs.Reading.{IsItem, IsVerdict, Says};
ghost use Rattle.gx_msg.specs.Steps as of;
ghost use Rattle.gx_msg.specs.declared.item.JournalItem.{JournalItem};

use crate::item::{ItemFault, JournalItem};
use crate::mid::Mid;
use crate::step::next;
use std::alloc::Global;

fn ended(mid: Mid, place: u64) -> Result<JournalItem, ItemFault>
    ensures { result ≡ of.ended mid place }
{
    match mid {
        Mid::Done(item) => Ok(item),
        other => {
            drop(other);
            Err(ItemFault::NotAnItem(place))
        }
    }
}

fn read(alloc: Global, bytes: &[u8]) -> Result<JournalItem, ItemFault>
    ensures { Says result (of.read bytes.now) }
{
    let mut mid = Mid::Start;
    for (place, byte) in bytes.iter().enumerate() {
        match next(alloc, mid, *byte)? {
            Some(next) => mid = next,
            None => return Err(ItemFault::NotAnItem(place as u64)),
        }
    }
    ended(mid, bytes.len() as u64)
}

/// Reads an item's bytes. A text may hold any bytes, rows may stand in any order, and each row that isn't gone has a
/// value.
pub fn read_item(alloc: Global, bytes: &[u8]) -> Result<JournalItem, ItemFault>
    // What is read is written so; a fault is the first byte with which no item goes on.
    ensures verdict { IsVerdict bytes.now result }
    // What is written so is read, unless memory runs out.
    ensures only { (item : JournalItem) → IsItem item → bytes.now ≡ bytes_of_item item → Says result (Ok item) }
{
    read(alloc, bytes)
}
