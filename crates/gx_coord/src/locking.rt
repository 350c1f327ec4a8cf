// The locks that transactions have here, how they wait for them, and how they are given back.
ghost use Rattle.std.specs.Prelude.{◌≡◌, ◌++◌, ◌∷◌, [], IfOk, OnOk, false, true};
ghost use Rattle.std.specs.List.{list_any};
ghost use Rattle.gx_waits.specs.Claims.{is_clear, is_of};
ghost use Rattle.gx_locks.specs.Locks.{may_take, resumed, wait_of};
ghost use Rattle.gx_node.specs.Locking.{asked_mark, resumed_marks};
ghost use Rattle.gx_rules.specs.Locks as rule;
ghost use Rattle.gx_store.specs.Refusals.{the_coordinator};
ghost use Rattle.gx_coord.specs.Books.{IsFramed, coord_of};
ghost use Rattle.gx_coord.specs.Locking.{asked};

use crate::coord::Coord;
use gx_ids::{Gxid, Mem, Node};
use gx_store::Mark;
use gx_waits::Claim;

// A transaction that has ended gives its locks back.
pub(crate) fn give_back(coord: &mut Coord, gxid: Gxid, marks: &mut Vec<Mark>) -> Mem<()>
    ensures framed { OnOk result (IsFramed coord.old coord.new) }
    ensures coord { OnOk result (coord_of coord.new ≡ record (coord_of coord.old) { locks = rule.released coord.old.locks gxid }) }
    ensures marks { OnOk result (marks.new.items ≡ marks.old.items ++ rule.release_marks the_coordinator coord.old.locks gxid) }
{
    gx_node::give_back(coord.alloc, Node(0), &mut coord.locks, gxid, marks)
}

// Whether a transaction has the lock that it asks for; else it waits for it from now on.
pub(crate) fn take_lock(coord: &mut Coord, wanted: Claim, marks: &mut Vec<Mark>) -> Mem<bool>
    requires { list_any (is_of wanted.gxid) coord.old.locks.waits ≡ false }
    ensures framed { OnOk result (IsFramed coord.old coord.new) }
    ensures granted { IfOk result (λ granted. granted ≡ is_clear coord.old.locks.holds coord.old.locks.waits wanted) }
    ensures coord { IfOk result (λ granted. coord_of coord.new ≡ asked (coord_of coord.old) wanted granted) }
    ensures marks { IfOk result (λ granted. marks.new.items ≡ marks.old.items ++ asked_mark the_coordinator wanted granted ∷ []) }
{
    gx_node::ask_for(Node(0), &mut coord.locks, wanted, marks)
}

// The ready wait of a transaction is a hold from now on.
pub(crate) fn take_ready(coord: &mut Coord, gxid: Gxid, marks: &mut Vec<Mark>) -> Mem<()>
    requires { may_take coord.old.locks gxid ≡ true }
    ensures framed { OnOk result (IsFramed coord.old coord.new) }
    ensures coord { OnOk result (coord_of coord.new ≡ record (coord_of coord.old) { locks = resumed coord.old.locks gxid (wait_of coord.old.locks gxid) }) }
    ensures marks { OnOk result (marks.new.items ≡ marks.old.items ++ resumed_marks the_coordinator (wait_of coord.old.locks gxid)) }
{
    gx_node::take_ready(Node(0), &mut coord.locks, gxid, marks)
}

// Whether the wait of a transaction is ready.
pub(crate) fn can_take(coord: &Coord, gxid: Gxid) -> bool
    ensures { result ≡ may_take coord.now.locks gxid }
{
    coord.locks.is_ready(gxid)
}
