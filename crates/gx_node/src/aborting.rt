// ABORT and FORGET.
ghost use Rattle.std.specs.Prelude.{◌≡◌, false};
ghost use Rattle.gx_node.specs.Changes.{Does};
ghost use Rattle.gx_node.specs.Changes as change;
ghost use Rattle.gx_node.specs.Outcomes.{answer_of};
ghost use Rattle.gx_node.specs.Phases.{local_of, phase_of};
ghost use Rattle.gx_rules.specs.Segments.{has_committed};

use crate::local::{Local, Phase};
use crate::taken::{Taken, Told, nothing, tell};
use gx_ids::{Gxid, Node};

// It ends here: its slice waits no more, and it gives its locks back.
fn end(node: Node, gxid: Gxid, local: &mut Local, phase: Phase, told: Told) -> Taken
    ensures does { Does (change.ends_now (local_of local.old) (phase_of phase) (answer_of told)) (local_of local.new) result }
    ensures took { result.fails ≡ false }
{
    local.phase = phase;
    local.suspended = None;
    Taken {
        node,
        gxid,
        noted: None,
        told: Some(told),
        fails: false,
        ends: true,
    }
}

// Whoever has not committed here is aborted, also one that is unknown here.
pub(crate) fn take_abort(node: Node, gxid: Gxid, local: &mut Local) -> Taken
    ensures does { Does (change.aborts (local_of local.old) (phase_of local.old.phase)) (local_of local.new) result }
    ensures took { result.fails ≡ false }
{
    match local.phase {
        Phase::Reading | Phase::Writing | Phase::Prepared => {
            end(node, gxid, local, Phase::Aborted, Told::Aborted)
        }
        Phase::Aborted => tell(node, gxid, Told::Aborted),
        _ => nothing(node, gxid),
    }
}

fn committed(phase: Phase) -> bool
    ensures { result ≡ has_committed (phase_of phase) }
{
    match phase {
        Phase::Committed => true,
        Phase::Forgotten(committed) => committed,
        _ => false,
    }
}

pub(crate) fn take_forget(node: Node, gxid: Gxid, local: &mut Local) -> Taken
    ensures does { Does (change.forgets (local_of local.old) (phase_of local.old.phase)) (local_of local.new) result }
    ensures took { result.fails ≡ false }
{
    match local.phase {
        Phase::Aborted => nothing(node, gxid),
        Phase::Forgotten(_) => tell(node, gxid, Told::Forgotten),
        phase => {
            let phase = Phase::Forgotten(committed(phase));
            end(node, gxid, local, phase, Told::Forgotten)
        }
    }
}
