//! Laws of the definitions, for those who build on them.
ghost use Rattle.std.specs.Prelude.{◌≡◌, ℕ, List, Some, Ok};
ghost use Rattle.gx_ids.specs.declared.ids.Table.{Table};
ghost use Rattle.gx_tree.specs.declared.schema.Schema.{Schema};
ghost use Rattle.gx_tree.specs.declared.stmt.Stmt.{Stmt};
ghost use Rattle.gx_lines.specs.declared.syn.StmtSyn.{StmtSyn};
ghost use Rattle.gx_resolve.specs.Resolving.{stmt_of, table_after};
ghost use Rattle.gx_meaning.specs.Statements.{IsAt, IsStmtOf};

/// A table that is found by its name stands at its place.
pub fn found_tables_stand()
    ensures { (tables : List Schema) (name : List ℕ) (found : Table × Schema) → table_after 0 name tables ≡ Some found → IsAt tables found.0 found.1 }
{}

/// A statement that is written over tables keeps the rules over them.
pub fn statements_keep_rules()
    ensures { (tables : List Schema) (written : StmtSyn) (s : Stmt) → stmt_of tables written ≡ Ok s → IsStmtOf tables s }
{}
