// The transactions by gxid.
ghost use Rattle.std.specs.Prelude.{◌≡◌, Some, None, IfOk, OnOk};
ghost use Rattle.std.specs.BTreeMap.{Updates, get};
ghost use Rattle.gx_ids.specs.declared.ids.Gxid.{Gxid};
ghost use Rattle.gx_dsnap.specs.Gxids.{gxid_cmp};
ghost use Rattle.gx_node.specs.Phases.{local_of};
ghost use Rattle.gx_slices.specs.Agrees.{local_in, rows_in};

use gx_ids::{Duplicate, Gxid, Mem};
use gx_msg::Reply;
use gx_node::Local;
use gx_slices::{Entry, KeptRows};
use std::alloc::Global;
use std::collections::BTreeMap;

pub(crate) type Entries = BTreeMap<Gxid, Entry>;

// The entry of a transaction of which nothing has come here.
pub(crate) fn new_entry(alloc: Global) -> Entry
    ensures local { local_of result.local ≡ local_in None }
    ensures kept { result.kept ≡ rows_in None }
{
    Entry {
        local: Local::new(),
        kept: KeptRows::new(alloc),
    }
}

pub(crate) fn put_in(entries: &mut Entries, gxid: Gxid, entry: Entry) -> Mem<()>
    ensures { OnOk result (Updates gxid_cmp entries.old entries.new gxid (Some entry)) }
{
    drop(entries.insert(gxid, entry)?);
    Ok(())
}

// What was answered to a transaction's last command.
pub(crate) fn kept_answer(alloc: Global, entries: &Entries, gxid: Gxid) -> Mem<Option<Reply>>
    ensures { IfOk result (λ reply. reply ≡ (local_in (get gxid_cmp entries.now gxid)).answer) }
{
    match entries.get(&gxid) {
        Some(entry) => entry.local.answer.copy(alloc),
        None => Ok(None),
    }
}
