// The answer of a command is kept.
ghost use Rattle.std.specs.Prelude.{◌≡◌, OnOk};
ghost use Rattle.gx_node.specs.Phases.{phase_of};
ghost use Rattle.gx_rules.specs.Slices as rule;
ghost use Rattle.gx_slices.specs.Apart.{IsBack, answered};

use crate::entries::{put_entry, set_holder};
use crate::held::{Entry, Held};
use gx_ids::{Cid, Duplicate, Gxid, Mem};
use gx_msg::Reply;
use gx_node::Phase;
use std::alloc::Global;

pub(crate) fn has_written(phase: Phase) -> bool
    ensures { result ≡ rule.has_written (phase_of phase) }
{
    match phase {
        Phase::Reading => false,
        _ => true,
    }
}

// A transaction's last command, and the answer to it.
fn note_answer(entry: &mut Entry, cid: Cid, reply: Reply)
    ensures { entry.new ≡ answered entry.old cid reply }
{
    entry.local.last = cid.0;
    drop(entry.local.answer.replace(reply));
}

// The entry is back, and the transaction is a holder where its command has a number.
pub(crate) fn put_back(held: &mut Held, gxid: Gxid, cid: Cid, entry: Entry) -> Mem<()>
    ensures { OnOk result (IsBack held.old held.new gxid cid entry) }
{
    put_entry(&mut held.entries, gxid, entry)?;
    set_holder(&mut held.holders, gxid, cid.0 > 0)
}

// Puts back the entry of a transaction that has neither promised nor ended here, with its last command and the answer to it.
pub(crate) fn keep_answer(
    alloc: Global,
    held: &mut Held,
    gxid: Gxid,
    cid: Cid,
    mut entry: Entry,
    reply: &Reply,
) -> Mem<()>
    ensures { OnOk result (IsBack held.old held.new gxid cid (answered entry cid reply.now)) }
{
    match reply.copy(alloc) {
        Ok(reply) => {
            note_answer(&mut entry, cid, reply);
            put_back(held, gxid, cid, entry)
        }
        Err(error) => {
            drop(entry);
            Err(error)
        }
    }
}
