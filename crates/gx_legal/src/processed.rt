// What a command has written or skipped.
ghost use Rattle.std.specs.Prelude.{◌≡◌, [], IfOk};
ghost use Rattle.gx_legal.specs.Gathered.{if_own as row_if_own, ordinals_from, own_ordinal as ordinal_of_own, processed_from, row_of as row_done};

use crate::command::Command;
use gx_ids::{Cid, Gxid, Mem, Rid};
use gx_store::Mark;
use std::alloc::Global;
use std::collections::BTreeSet;

/// The rows that the command has written or skipped.
pub(crate) fn processed(alloc: Global, marks: &[Mark], command: Command) -> Mem<BTreeSet<Rid>>
    ensures { IfOk result (λ rids. rids.keys ≡ processed_from command.gxid command.cid [] marks.now) }
{
    let mut rids = BTreeSet::new(alloc);
    for mark in marks {
        if let Some(rid) = row_of(mark, command) {
            rids.insert(rid)?;
        }
    }
    Ok(rids)
}

/// The ordinals of the rows among them that are the command's own.
pub(crate) fn processed_ordinals(
    alloc: Global,
    marks: &[Mark],
    command: Command,
) -> Mem<BTreeSet<u64>>
    ensures { IfOk result (λ ordinals. ordinals.keys ≡ ordinals_from command.gxid command.cid [] marks.now) }
{
    let mut ordinals = BTreeSet::new(alloc);
    for mark in marks {
        if let Some(ordinal) = own_ordinal(command, row_of(mark, command)) {
            ordinals.insert(ordinal)?;
        }
    }
    Ok(ordinals)
}

fn own_ordinal(command: Command, rid: Option<Rid>) -> Option<u64>
    ensures { result ≡ ordinal_of_own command.gxid command.cid rid }
{
    let rid = rid?;
    let own = rid.gxid == command.gxid && rid.cid == command.cid;
    own.then_some(u64::from(rid.ordinal))
}

fn row_of(mark: &Mark, command: Command) -> Option<Rid>
    ensures { result ≡ row_done command.gxid command.cid mark.now }
{
    match mark {
        Mark::Write { gxid, cid, rid, .. } | Mark::Skip { gxid, cid, rid } => {
            if_own(command, *gxid, *cid, *rid)
        }
        _ => None,
    }
}

fn if_own(command: Command, gxid: Gxid, cid: Cid, rid: Rid) -> Option<Rid>
    ensures { result ≡ row_if_own command.gxid command.cid gxid cid rid }
{
    let own = gxid == command.gxid && cid == command.cid;
    own.then_some(rid)
}
