// The image of a row.
ghost use Rattle.std.specs.Prelude.{◌≡◌, ◌++◌, OnOk};
ghost use Rattle.gx_report.specs.Words.{image_text};

use crate::words::push_rid;
use gx_ids::{Mem, Rid};
use gx_msg::push_image as push_values;
use gx_text::push_bytes;
use gx_tree::Row;
use std::alloc::Global;

/// Adds a row's identity and its image.
pub fn push_image(alloc: Global, text: &mut Vec<u8>, rid: Rid, image: &Option<Row>) -> Mem<()>
    ensures { OnOk result (text.new.items ≡ text.old.items ++ image_text rid image.now) }
{
    push_rid(alloc, text, rid)?;
    push_bytes(text, b" ")?;
    push_values(text, image)
}
