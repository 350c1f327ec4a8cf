// The nodes to which a command goes.
ghost use Rattle.std.specs.Prelude.{◌≡◌, [], IfOk, Some};
ghost use Rattle.std.specs.Option.{option_copied};
ghost use Rattle.gx_meaning.specs.Statements.{IsStmtOf, table_of as its_table};
ghost use Rattle.gx_store.specs.Language.{IsScript};
ghost use Rattle.gx_legal.specs.Done.{AreSent};
ghost use Rattle.gx_legal.specs.Tables.{IsOn, IsShort, table_at};

use crate::command::Command;
use gx_eval::EvalFault;
use gx_ids::{Mem, OutOfMemory, Table};
use gx_meaning::Piece;
use gx_plan::plan;
use gx_script::Script;
use gx_tree::{Schema, Stmt};
use std::alloc::Global;

fn table_of(stmt: &Stmt) -> Option<Table>
    ensures { result ≡ its_table stmt.now }
{
    match stmt {
        Stmt::Select(query) => Some(query.get().table),
        Stmt::Insert(table, _)
        | Stmt::Update(table, _, _)
        | Stmt::Delete(table, _)
        | Stmt::Lock(table, _) => Some(*table),
        Stmt::Begin(_) | Stmt::Commit | Stmt::Rollback => None,
    }
}

fn schema_at(tables: &[Schema], table: Option<Table>) -> Option<&Schema>
    ensures { option_copied result ≡ table_at tables.now table }
{
    match table {
        Some(table) => tables.get(table.0 as usize),
        None => None,
    }
}

fn schema_of<'a>(script: &'a Script, stmt: &Stmt) -> Option<&'a Schema>
    ensures { option_copied result ≡ table_at script.now.tables (its_table stmt.now) }
{
    schema_at(script.tables.as_slice(), table_of(stmt))
}

fn no_pieces(alloc: Global) -> Vec<Piece>
    ensures { result.items ≡ [] }
{
    Vec::new(alloc)
}

// Where a constant of the command faults it goes nowhere.
fn planned(
    alloc: Global,
    script: &Script,
    schema: &Schema,
    command: Command,
    stmt: &Stmt,
) -> Mem<Vec<Piece>>
    requires script { IsScript script.now }
    requires line { IsStmtOf script.now.tables stmt.now }
    requires on { IsOn script.now.tables stmt.now schema.now }
    requires short { IsShort stmt.now }
    ensures { IfOk result (λ pieces. AreSent script.now command.gxid command.cid stmt.now pieces.items) }
{
    match plan(
        alloc,
        stmt,
        schema,
        command.gxid,
        command.cid,
        script.segments,
    ) {
        Ok(pieces) => Ok(pieces),
        Err(EvalFault::OutOfMemory) => Err(OutOfMemory),
        Err(EvalFault::Overflow) => Ok(no_pieces(alloc)),
        Err(EvalFault::DivisionByZero) => Ok(no_pieces(alloc)),
    }
}

/// The pieces of the command's plan, or none where it has no plan.
pub fn pieces_of(alloc: Global, script: &Script, command: Command, stmt: &Stmt) -> Mem<Vec<Piece>>
    requires script { IsScript script.now }
    requires line { IsStmtOf script.now.tables stmt.now }
    requires short { IsShort stmt.now }
    ensures { IfOk result (λ pieces. AreSent script.now command.gxid command.cid stmt.now pieces.items) }
{
    match schema_of(script, stmt) {
        Some(schema) => planned(alloc, script, schema, command, stmt),
        None => Ok(no_pieces(alloc)),
    }
}
