// The journals that a run is given.
ghost use Rattle.std.specs.Prelude.{◌≡◌, IfOk, None, length, map};
ghost use Rattle.gx_outside.specs.Memory.{shelf_of};
ghost use Rattle.gx_outside.specs.Shelves.{AreEmpty};
ghost use Rattle.gx_judge.specs.Refusing as of;

use crate::asked::Append;
use gx_ids::Mem;
use gx_outside::JournalMem;
use std::alloc::Global;

fn journal_at(alloc: Global, refused: Option<Append>, node: u8) -> Mem<JournalMem>
    ensures { IfOk result (λ journal. journal ≡ of.journal_at refused node) }
{
    let mut fail = Vec::new(alloc);
    if let Some(append) = refused
        && append.node == node
    {
        fail.push(append.call)?;
    }
    JournalMem::new(alloc, fail)
}

/// Empty journals for the coordinator and 16 segments, of which the append that is asked for fails.
pub fn journals_for(alloc: Global, refused: Option<Append>) -> Mem<Vec<JournalMem>>
    ensures are { IfOk result (λ journals. journals.items ≡ of.journals_below refused 17) }
    ensures count { IfOk result (λ journals. length journals.items ≡ 17) }
    ensures empty { IfOk result (λ journals. AreEmpty (map shelf_of journals.items)) }
{
    let mut journals = Vec::new(alloc);
    for node in 0..17u8 {
        journals.push(journal_at(alloc, refused, node)?)?;
    }
    Ok(journals)
}

/// An empty journal that never fails.
pub fn new_journal(alloc: Global) -> Mem<JournalMem>
    ensures { IfOk result (λ journal. journal ≡ of.journal_at None 0) }
{
    journal_at(alloc, None, 0)
}

/// So many empty journals that never fail.
pub fn new_journals(alloc: Global, count: u8) -> Mem<Vec<JournalMem>>
    ensures count { IfOk result (λ journals. length journals.items ≡ count) }
    ensures empty { IfOk result (λ journals. AreEmpty (map shelf_of journals.items)) }
{
    let mut journals = Vec::new(alloc);
    for _before in 0..count {
        journals.push(new_journal(alloc)?)?;
    }
    Ok(journals)
}
