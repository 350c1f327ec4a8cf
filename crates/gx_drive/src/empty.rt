ghost use Rattle.std.specs.Prelude.{◌≡◌, [], All, IfOk, length, map};
ghost use Rattle.gx_outside.specs.Memory.{shelf_of};
ghost use Rattle.gx_outside.specs.Shelves.{AreEmpty};

use gx_ids::Mem;
use gx_outside::JournalMem;
use std::alloc::Global;

/// Empty journals for the coordinator and 16 segments, of which no append is made to fail.
pub fn empty_journals(alloc: Global) -> Mem<Vec<JournalMem>>
    ensures count { IfOk result (λ journals. length journals.items ≡ 17) }
    ensures empty { IfOk result (λ journals. AreEmpty (map shelf_of journals.items)) }
    ensures sound { IfOk result (λ journals. All (λ journal. journal.fail ≡ []) journals.items) }
{
    let mut journals = Vec::new(alloc);
    for _node in 0..17usize {
        journals.push(JournalMem::new(alloc, Vec::new(alloc))?)?;
    }
    Ok(journals)
}
