//! Laws of the rules, over every list of calls that may be made.
ghost use Rattle.std.specs.Prelude.{◌≡◌, ◌<◌, ◌↔◌, List, ◌∷◌, Bool, false, true, None};
ghost use Rattle.gx_ids.specs.declared.ids.Gxid.{Gxid};
ghost use Rattle.gx_ids.specs.declared.ids.Node.{Node};
ghost use Rattle.gx_dsnap.specs.Snapshot.{sees};
ghost use Rattle.gx_dsnap.specs.declared.snapshot.Snapshot.{Snapshot};
ghost use Rattle.gx_msg.specs.declared.reply.Reply.{Reply};
ghost use Rattle.gx_dtx.specs.Table.{Table, IsTaken, horizon_of, status_of};
ghost use Rattle.gx_dtx.specs.Rules.{awaits, awaited_order, nothing, on_reply};
ghost use Rattle.gx_dtx.specs.Runs.{Call, after, IsRun};
ghost use Rattle.gx_dtx.specs.Past.{past, is_over, IsForgotten};
ghost use Rattle.gx_dtx.specs.Laws.{IsLow, KeepsProtocol, IsTold, HasCause, HasEffect};

/// A snapshot sees exactly the transactions that are over when it is taken: committed, or aborted everywhere.
pub fn snapshots_see_what_is_over()
    ensures { (calls : List Call) (snap : Snapshot) (g : Gxid) → IsRun calls → IsTaken (after calls) snap → 0 < g.0 → sees snap g ≡ is_over (past g calls).fate }
{}

/// The horizon is at or below each transaction that isn't over, each that somebody hasn't forgotten, and the `xmin` of
/// each live snapshot.
pub fn horizon_is_low()
    ensures { (calls : List Call) (g : Gxid) → IsRun calls → IsLow (horizon_of (after calls)) g (past g calls) }
{}

/// A transaction is decided only when each of its writers has promised; it commits only when its one writer has
/// committed, or when each of several has promised and committed; and an abort ends it only when all have aborted.
pub fn protocol_is_kept()
    ensures { (calls : List Call) (g : Gxid) → IsRun calls → KeepsProtocol (past g calls) }
{}

/// Each participant is told to forget or to abort until it has answered.
pub fn participants_are_told()
    ensures { (calls : List Call) (g : Gxid) → IsRun calls → IsTold (after calls) g (past g calls) }
{}

/// What is over stays so, whatever is called.
pub fn over_is_over()
    ensures { (call : Call) (before : List Call) (g : Gxid) → IsRun (call ∷ before) → is_over (past g before).fate ≡ true → (past g (call ∷ before)).fate ≡ (past g before).fate }
{}

/// A transaction has no status exactly where it hasn't begun, or is over and nobody has to hear of it any more.
pub fn status_is_none_where_forgotten()
    ensures { (calls : List Call) (g : Gxid) → IsRun calls → (status_of (after calls) g ≡ None) ↔ IsForgotten (past g calls) }
{}

/// An answer that isn't awaited changes nothing and comes to nothing.
pub fn unawaited_answers_change_nothing()
    ensures { (table : Table) (g : Gxid) (i : Node) (answer : Reply) (refused : Bool) → awaits table g i answer ≡ false → on_reply table g i answer refused ≡ record { table = table; out = nothing } }
{}

/// What an answer comes to has its cause.
pub fn outcomes_have_causes()
    ensures { (calls : List Call) (g : Gxid) (i : Node) (answer : Reply) (refused : Bool) → IsRun calls
        → HasCause (after calls) g i answer refused (on_reply (after calls) g i answer refused).out.outcome }
{}

/// An awaited JFAULT refuses, and an answer that decides is decided or refused, as the journal says.
pub fn causes_have_outcomes()
    ensures { (table : Table) (g : Gxid) (i : Node) (answer : Reply) (refused : Bool) → HasEffect table g i answer refused }
{}

/// There is no order to send again to a node exactly where none of its answers is awaited.
pub fn nothing_is_sent_again_unawaited()
    ensures { (table : Table) (g : Gxid) (i : Node) → (awaited_order table g i ≡ None) ↔ ((answer : Reply) → awaits table g i answer ≡ false) }
{}
