// The segments of a new network.
ghost use Rattle.std.specs.Prelude.{◌≡◌, IfOk, length};
ghost use Rattle.gx_world.specs.Made.{AreNew};

use gx_ids::{Mem, Node};
use gx_script::Script;
use gx_segment::Segment;
use std::alloc::Global;
use std::sync::Arc;

// So many segments to which nothing has come.
pub(crate) fn new_segments(
    alloc: Global,
    script: &Arc<Script, Global>,
    count: u8,
) -> Mem<Vec<Segment>>
    ensures count { IfOk result (λ segments. length segments.items ≡ count) }
    ensures new { IfOk result (λ segments. AreNew script.now.value segments.items) }
{
    let mut segments = Vec::with_capacity(alloc, usize::from(count))?;
    for before in 0..count {
        segments.push(Segment::new(alloc, Node(before + 1), script.clone()?)?)?;
    }
    Ok(segments)
}
