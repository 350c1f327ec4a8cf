//! Runs that don't follow the commit protocol: in each of them all but one thing is right.
ghost use Rattle.std.specs.Prelude.{List};
ghost use Rattle.gx_dsnap.specs.declared.snapshot.Snapshot.{Snapshot as OneSnapshot};
ghost use Rattle.gx_ids.specs.declared.ids.Table.{Table as OneTable};
ghost use Rattle.gx_script.specs.declared.Script.{Script as OneScript};
ghost use Rattle.gx_store.specs.RefusedCommits.{BreaksProtocol, answered_at_once, committed_early, decided_late, decided_of_nobody, decided_twice, one_select, promised_unwritten, two_writers, written_late};
ghost use Rattle.gx_store.specs.RefusedParts.{empty_block};
ghost use Rattle.gx_tree.specs.declared.expr.Expr.{Expr as OneExpr};
ghost use Rattle.gx_tree.specs.declared.query.Query.{Query as OneQuery};
ghost use Rattle.gx_tree.specs.declared.value.Value.{Value as OneValue};

/// A command isn't answered in the step that sends it out.
pub fn answers_wait_for_segments()
    ensures { (script : OneScript) (query : OneQuery) (snapshot : OneSnapshot) → BreaksProtocol (one_select script query) (answered_at_once query snapshot) }
{}

/// Nothing is decided of a transaction without writers, and no segment promises that has not written.
pub fn writers_promise()
    ensures nobody { (script : OneScript) → BreaksProtocol (empty_block script) decided_of_nobody }
    ensures unwritten { (script : OneScript) → BreaksProtocol (empty_block script) promised_unwritten }
{}

/// Nothing is decided twice, nor behind a transaction's end.
pub fn decisions_come_once()
    ensures twice { (script : OneScript) (table : OneTable) (one other : List OneExpr) (snapshot : OneSnapshot) (row more : List OneValue)
        → BreaksProtocol (two_writers script table one other) (decided_twice table snapshot row more) }
    ensures late { (script : OneScript) (table : OneTable) (one other : List OneExpr) (snapshot : OneSnapshot) (row more : List OneValue)
        → BreaksProtocol (two_writers script table one other) (decided_late table snapshot row more) }
{}

/// Of two writers none commits before it is decided.
pub fn commits_follow_the_decision()
    ensures { (script : OneScript) (table : OneTable) (one other : List OneExpr) (snapshot : OneSnapshot) (row more : List OneValue)
        → BreaksProtocol (two_writers script table one other) (committed_early table snapshot row more) }
{}

/// Who has promised writes nothing more.
pub fn promises_are_of_all_rows()
    ensures { (script : OneScript) (table : OneTable) (one other : List OneExpr) (snapshot : OneSnapshot) (row more late : List OneValue)
        → BreaksProtocol (two_writers script table one other) (written_late table snapshot row more late) }
{}
