//! The slices that go out are right for the script.

ghost use Rattle.std.specs.Prelude.{◌≡◌, List, Ok, true};
ghost use Rattle.std.specs.List.{All};
ghost use Rattle.gx_ids.specs.declared.ids.Cid.{Cid as OneCid};
ghost use Rattle.gx_ids.specs.declared.ids.Gxid.{Gxid as OneGxid};
ghost use Rattle.gx_meaning.specs.Plan.{plan_of};
ghost use Rattle.gx_meaning.specs.Statements.{IsStmtOf};
ghost use Rattle.gx_meaning.specs.declared.piece.Piece.{Piece as OnePiece};
ghost use Rattle.gx_rules.specs.Fits.{is_right_slice};
ghost use Rattle.gx_script.specs.declared.Script.{Script};
ghost use Rattle.gx_store.specs.Whole.{HasItem};
ghost use Rattle.gx_tree.specs.declared.schema.Dist.{Dist as OneDist};
ghost use Rattle.gx_tree.specs.declared.stmt.Stmt.{Stmt as OneStmt};

/// Each piece of a statement's plan is right for the script, where the statement keeps the language's rules over the script's tables, and
/// has an item where it is a query. That is what a segment's test asks of the slice itself; what it asks of the horizon, the snapshot and
/// of who waits there isn't said here.
pub fn pieces_are_right()
    ensures { (script : Script) (dist : OneDist) (g : OneGxid) (c : OneCid) (line : OneStmt) (pieces : List OnePiece) → IsStmtOf script.tables line → HasItem line
        → plan_of script.segments dist g c line ≡ Ok pieces → All (λ piece. is_right_slice script g c piece.slice ≡ true) pieces }
{}
