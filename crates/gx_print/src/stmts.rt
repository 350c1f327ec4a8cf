// Statements.
ghost use Rattle.std.specs.Prelude.{◌≡◌, ◌++◌, codes, OnOk, IfOk, map};
ghost use Rattle.std.specs.Option.{option_map};
ghost use Rattle.gx_lines.specs.declared.syn.StmtSyn.TheVariants.{Insert, Update, Delete};
ghost use Rattle.gx_grammar.specs.declared.fault.Limits.{Limits};
ghost use Rattle.gx_print.specs.Statements as of;
ghost use Rattle.gx_print.specs.Limited.{IsWithin, StmtClear, IsPrintedAs};
ghost use Rattle.gx_print.specs.Written.{cond_syn, tuple_syn, assign_syn, written, printed};

use crate::exprs::push_expr;
use crate::lists::{Printed, push_list};
use crate::names::{column_name, columns_of, table_name};
use crate::queries::{push_select, push_where};
use gx_ids::{Mem, Seq, Table};
use gx_modes::Mode;
use gx_text::push_bytes;
use gx_tree::{Assign, Column, Cond, Expr, Level, Schema, Stmt};
use std::alloc::Global;

impl Printed for Expr {
    ghost use Rattle.gx_grammar.specs.declared.syn.Syn.{Syn};
    ghost use Rattle.gx_print.specs.Statements.{expr_text};
    ghost use Rattle.gx_print.specs.Written.{expr_syn};

    ghost Written = { Syn };

    ghost written = { expr_syn };

    ghost form = { expr_text };

    fn push(&self, text: &mut Vec<u8>, columns: &[Column]) -> Mem<()> {
        push_expr(text, columns, self)
    }
}

impl Printed for Seq<Expr> {
    ghost use Rattle.gx_lines.specs.declared.syn.TupleSyn.{TupleSyn};
    ghost use Rattle.gx_print.specs.Statements.{tuple_text};
    ghost use Rattle.gx_print.specs.Written.{tuple_syn};

    ghost Written = { TupleSyn };

    ghost written = { tuple_syn };

    ghost form = { tuple_text };

    fn push(&self, text: &mut Vec<u8>, columns: &[Column]) -> Mem<()> {
        push_bytes(text, b"(")?;
        push_list(text, columns, self.as_slice())?;
        push_bytes(text, b")")
    }
}

impl Printed for Assign {
    ghost use Rattle.gx_lines.specs.declared.syn.AssignSyn.{AssignSyn};
    ghost use Rattle.gx_print.specs.Statements.{assign_text};
    ghost use Rattle.gx_print.specs.Written.{assign_syn};

    ghost Written = { AssignSyn };

    ghost written = { assign_syn };

    ghost form = { assign_text };

    fn push(&self, text: &mut Vec<u8>, columns: &[Column]) -> Mem<()> {
        push_bytes(text, column_name(columns, self.col))?;
        push_bytes(text, b" = ")?;
        push_expr(text, columns, &self.expr)
    }
}

// The words of BEGIN.
fn begin_words(level: Level) -> &'static [u8]
    ensures { result.now ≡ of.begin_text level }
{
    match level {
        Level::ReadCommitted => b"BEGIN",
        Level::RepeatableRead => b"BEGIN ISOLATION LEVEL REPEATABLE READ",
    }
}

fn mode_words(mode: Mode) -> &'static [u8]
    ensures { result.now ≡ of.mode_text mode }
{
    match mode {
        Mode::AccessShare => b"ACCESS SHARE",
        Mode::RowShare => b"ROW SHARE",
        Mode::RowExclusive => b"ROW EXCLUSIVE",
        Mode::ShareUpdateExclusive => b"SHARE UPDATE EXCLUSIVE",
        Mode::Share => b"SHARE",
        Mode::ShareRowExclusive => b"SHARE ROW EXCLUSIVE",
        Mode::Exclusive => b"EXCLUSIVE",
        Mode::AccessExclusive => b"ACCESS EXCLUSIVE",
    }
}

fn push_insert(text: &mut Vec<u8>, name: &[u8], columns: &[Column], tuples: &[Seq<Expr>]) -> Mem<()>
    ensures { OnOk result (text.new.items ≡ text.old.items ++ of.stmt_text (Insert name.now (map (tuple_syn columns.now) tuples.now))) }
{
    push_bytes(text, b"INSERT INTO ")?;
    push_bytes(text, name)?;
    push_bytes(text, b" VALUES ")?;
    push_list(text, columns, tuples)
}

fn push_update(
    text: &mut Vec<u8>,
    name: &[u8],
    columns: &[Column],
    assigns: &[Assign],
    cond: &Option<Cond>,
) -> Mem<()>
    ensures { OnOk result (text.new.items ≡ text.old.items ++ of.stmt_text (Update name.now (map (assign_syn columns.now) assigns.now) (option_map (cond_syn columns.now) cond.now))) }
{
    push_bytes(text, b"UPDATE ")?;
    push_bytes(text, name)?;
    push_bytes(text, b" SET ")?;
    push_list(text, columns, assigns)?;
    push_where(text, columns, cond)
}

fn push_delete(text: &mut Vec<u8>, name: &[u8], columns: &[Column], cond: &Option<Cond>) -> Mem<()>
    ensures { OnOk result (text.new.items ≡ text.old.items ++ of.stmt_text (Delete name.now (option_map (cond_syn columns.now) cond.now))) }
{
    push_bytes(text, b"DELETE FROM ")?;
    push_bytes(text, name)?;
    push_where(text, columns, cond)
}

fn push_lock(text: &mut Vec<u8>, name: &[u8], mode: &[u8]) -> Mem<()>
    ensures { OnOk result (text.new.items ≡ text.old.items ++ (codes "LOCK TABLE " ++ (name.now ++ (codes " IN " ++ (mode.now ++ codes " MODE"))))) }
{
    push_bytes(text, b"LOCK TABLE ")?;
    push_bytes(text, name)?;
    push_bytes(text, b" IN ")?;
    push_bytes(text, mode)?;
    push_bytes(text, b" MODE")
}

fn push_stmt(text: &mut Vec<u8>, tables: &[Schema], stmt: &Stmt) -> Mem<()>
    ensures { OnOk result (text.new.items ≡ text.old.items ++ printed tables.now stmt.now) }
{
    match stmt {
        Stmt::Begin(level) => push_bytes(text, begin_words(*level)),
        Stmt::Commit => push_bytes(text, b"COMMIT"),
        Stmt::Rollback => push_bytes(text, b"ROLLBACK"),
        Stmt::Select(query) => push_select(text, tables, query.get()),
        Stmt::Insert(table, tuples) => {
            let columns = columns_of(tables, *table);
            push_insert(text, table_name(tables, *table), columns, tuples.as_slice())
        }
        Stmt::Update(table, assigns, cond) => {
            let columns = columns_of(tables, *table);
            let name = table_name(tables, *table);
            push_update(text, name, columns, assigns.get().as_slice(), cond.get())
        }
        Stmt::Delete(table, cond) => {
            let columns = columns_of(tables, *table);
            push_delete(text, table_name(tables, *table), columns, cond.get())
        }
        Stmt::Lock(table, mode) => {
            push_lock(text, table_name(tables, *table), mode_words(*mode))
        }
    }
}

fn print(alloc: Global, tables: &[Schema], stmt: &Stmt) -> Mem<Vec<u8>>
    ensures { IfOk result (λ bytes. bytes.items ≡ printed tables.now stmt.now) }
{
    let mut text = Vec::new(alloc);
    push_stmt(&mut text, tables, stmt)?;
    Ok(text)
}

/// The printed form of a statement over its tables.
pub fn print_stmt(alloc: Global, tables: &[Schema], stmt: &Stmt) -> Mem<Vec<u8>>
    ensures form { IfOk result (λ bytes. bytes.items ≡ printed tables.now stmt.now) }
    // The bytes are cut into tokens that the rules of the language spell as the statement.
    ensures again { (d : Limits) → StmtClear (written tables.now stmt.now) → IsWithin d (written tables.now stmt.now) → IfOk result (λ bytes. IsPrintedAs d (written tables.now stmt.now) bytes.items) }
{
    print(alloc, tables, stmt)
}
