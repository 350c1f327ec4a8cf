// A journal in memory that refuses an append, under the call that decides a commit of two writers.
use gx_dtx::{Dtx, Outcome};
use gx_ids::{Mem, Node};
use gx_msg::Reply;
use gx_outside::{Journal, JournalMem};
use std::alloc::Global;
use std::test::Fail;

// What the last PREPARED of a transaction comes to.
fn last_prepared(alloc: Global, journal: &mut JournalMem) -> Mem<Outcome> {
    let mut dtx = Dtx::new(alloc)?;
    let gxid = dtx.begin()?;
    dtx.enlist(gxid, Node(1))?;
    dtx.enlist(gxid, Node(2))?;
    let mut spent = Vec::new(alloc);
    dtx.commit(&mut spent, gxid, &[Node(1), Node(2)])?;
    dtx.reply(&mut spent, gxid, Node(1), Reply::Prepared, journal)?;
    let out = dtx.reply(&mut spent, gxid, Node(2), Reply::Prepared, journal)?;
    Ok(out.outcome)
}

#[test]
fn a_refused_item_refuses_the_commit(rt: HostRuntime) -> Result<(), Fail> {
    let alloc = rt.alloc();
    let mut journal = JournalMem::new(alloc, vec![in alloc; 1]?)?;
    let outcome = last_prepared(alloc, &mut journal)?;
    assert!(rt; matches!(outcome, Outcome::Refused(Node(0))));
    assert!(rt; journal.kept_items().is_empty() && journal.faults() == 1);
    let outcome = last_prepared(alloc, &mut journal)?;
    assert!(rt; matches!(outcome, Outcome::Decided));
    assert!(rt; journal.kept_items().len() == 1 && journal.faults() == 1);
    Ok(())
}
