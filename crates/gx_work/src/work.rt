// The whole text.
ghost use Rattle.std.specs.Prelude.{◌≡◌, ◌≤◌, IfOk, length};
ghost use Rattle.gx_print.specs.OneLine.{IsReadAs};
ghost use Rattle.gx_work.specs.Text.{work_text};
ghost use Rattle.gx_work.specs.Work.{work_script};

use crate::batches::push_batches;
use crate::draws::words_of;
use crate::head::push_head;
use gx_ids::Mem;
use std::alloc::Global;

/// The generated script of a number.
pub fn generate(alloc: Global, number: u64) -> Mem<Vec<u8>>
    ensures text { IfOk result (λ text. text.items ≡ work_text number) }
    ensures script { IfOk result (λ text. IsReadAs text.items (work_script number)) }
    ensures short { IfOk result (λ text. length text.items ≤ 160000) }
{
    let words = words_of(alloc, number)?;
    let mut text = Vec::new(alloc);
    push_head(&mut text)?;
    push_batches(alloc, &mut text, 100, words.as_slice())?;
    Ok(text)
}
