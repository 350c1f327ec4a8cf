// Statements over the tables.
ghost use Rattle.std.specs.Prelude.{◌≡◌, ◌≤◌, length, List, Option, IfOk};
ghost use Rattle.std.specs.Option.{option_copied, option_map, ForSome};
ghost use Rattle.gx_resolve.specs.Results.{Says};
ghost use Rattle.gx_resolve.specs.Resolving as of;
ghost use Rattle.gx_meaning.specs.Statements.{IsFound, IsStmtOf};
ghost use Rattle.gx_tree.specs.declared.schema.Schema.{Schema as SchemaOf};

use crate::fault::{NameFault, ResolveError};
use crate::naming::check_names;
use crate::parts::{resolve_each, where_as};
use crate::select::query_as;
use gx_grammar::Syn;
use gx_ids::{Seq, Shared, Table};
use gx_lex::Name;
use gx_lines::{AssignSyn, StmtSyn};
use gx_tree::{Assign, Column, Dist, Schema, Stmt};
use std::alloc::Global;

/// The table that a statement names, where it names one.
pub fn named_table<'s, 'a>(stmt: &'s StmtSyn<'a>) -> Option<&'s Name<'a>>
    ensures { option_copied result ≡ of.table_named stmt.now }
{
    match stmt {
        StmtSyn::Select(select) => Some(&select.get().table),
        StmtSyn::Insert(table, _) => Some(table),
        StmtSyn::Update(table, _, _) => Some(table),
        StmtSyn::Delete(table, _) => Some(table),
        StmtSyn::Lock(table, _) => Some(table),
        StmtSyn::Begin(_) => None,
        StmtSyn::Commit => None,
        StmtSyn::Rollback => None,
    }
}

fn update_as(
    alloc: Global,
    table: Table,
    columns: &[Column],
    assigns: &[AssignSyn],
    cond: &Option<Syn>,
) -> Result<Stmt, ResolveError>
    requires { length columns.now ≤ 256 }
    ensures { Says result (of.update_as table columns.now assigns.now cond.now) }
{
    let assigns = Shared::new(alloc, resolve_each(alloc, columns, assigns)?)?;
    let cond = Shared::new(alloc, where_as(alloc, columns, cond)?)?;
    Ok(Stmt::Update(table, assigns, cond))
}

// The statement by its kinds, counts and ranges alone.
fn kinded(
    alloc: Global,
    table: Table,
    columns: &[Column],
    stmt: &StmtSyn,
) -> Result<Stmt, ResolveError>
    requires { length columns.now ≤ 256 }
    ensures { Says result (of.kinded table columns.now stmt.now) }
{
    match stmt {
        StmtSyn::Begin(level) => Ok(Stmt::Begin(*level)),
        StmtSyn::Commit => Ok(Stmt::Commit),
        StmtSyn::Rollback => Ok(Stmt::Rollback),
        StmtSyn::Select(select) => {
            let query = query_as(alloc, table, columns, select.get())?;
            Ok(Stmt::Select(Shared::new(alloc, query)?))
        }
        StmtSyn::Insert(_, tuples) => {
            let tuples = resolve_each(alloc, columns, tuples.as_slice())?;
            Ok(Stmt::Insert(table, tuples))
        }
        StmtSyn::Update(_, assigns, cond) => {
            update_as(alloc, table, columns, assigns.as_slice(), cond)
        }
        StmtSyn::Delete(_, cond) => {
            let cond = where_as(alloc, columns, cond)?;
            Ok(Stmt::Delete(table, Shared::new(alloc, cond)?))
        }
        StmtSyn::Lock(_, mode) => Ok(Stmt::Lock(table, *mode)),
    }
}

fn assigns_to(assigns: &[Assign], key: u8) -> bool
    ensures { result ≡ of.assigns_to assigns.now key }
{
    assigns.iter().any(|assign| assign.col == key)
}

// Whether an UPDATE sets the column at this place.
fn updates(stmt: &Stmt, key: u8) -> bool
    ensures { result ≡ of.updates stmt.now key }
{
    match stmt {
        Stmt::Update(_, assigns, _) => assigns_to(assigns.get().as_slice(), key),
        _ => false,
    }
}

fn sets_key(dist: Dist, stmt: &Stmt) -> bool
    ensures { result ≡ of.sets_key dist stmt.now }
{
    match dist {
        Dist::By(key) => updates(stmt, key),
        Dist::Randomly => false,
    }
}

fn key_kept(dist: Dist, stmt: Stmt) -> Result<Stmt, ResolveError>
    ensures { Says result (of.key_kept dist stmt) }
{
    if sets_key(dist, &stmt) {
        Err(ResolveError::Fault(NameFault::KeyUpdate))
    } else {
        Ok(stmt)
    }
}

fn over_table(
    alloc: Global,
    table: Table,
    schema: &Schema,
    stmt: &StmtSyn,
) -> Result<Stmt, ResolveError>
    requires { length schema.now.columns ≤ 256 }
    ensures { Says result (of.over_table table schema.now stmt.now) }
{
    let columns = schema.columns.as_slice();
    check_names(columns, stmt)?;
    let resolved = kinded(alloc, table, columns, stmt)?;
    key_kept(schema.dist, resolved)
}

fn resolved(
    alloc: Global,
    found: Option<(Table, &Schema)>,
    stmt: &StmtSyn,
) -> Result<Stmt, ResolveError>
    requires { ForSome found (λ f. length f.1.now.columns ≤ 256) }
    ensures { Says result (of.stmt_from (option_map (λ f. (f.0, f.1.now)) found.entry) stmt.now) }
{
    match stmt {
        StmtSyn::Begin(level) => Ok(Stmt::Begin(*level)),
        StmtSyn::Commit => Ok(Stmt::Commit),
        StmtSyn::Rollback => Ok(Stmt::Rollback),
        _ => match found {
            None => Err(ResolveError::Fault(NameFault::UnknownTable)),
            Some((table, schema)) => over_table(alloc, table, schema, stmt),
        },
    }
}

/// What a statement is over the tables, or what is wrong with it, given the place and the columns of the table that it
/// names.
pub fn resolve_stmt(
    alloc: Global,
    found: Option<(Table, &Schema)>,
    stmt: &StmtSyn,
) -> Result<Stmt, ResolveError>
    requires { ForSome found (λ f. length f.1.now.columns ≤ 256) }
    ensures answer { Says result (of.stmt_from (option_map (λ f. (f.0, f.1.now)) found.entry) stmt.now) }
    ensures rules { IfOk result (λ s. (tables : List SchemaOf) → IsFound tables (option_map (λ f. (f.0, f.1.now)) found.entry) → IsStmtOf tables s) }
{
    resolved(alloc, found, stmt)
}
