use crate::cond::Cond;
use crate::expr::Expr;
use crate::query::Query;
use gx_ids::{Duplicate, Mem, Seq, Shared, Table};
use gx_modes::Mode;
use std::alloc::Global;

/// An isolation level (PostgreSQL manual 13.2).
#[derive(Clone, Copy)]
pub enum Level {
    ReadCommitted,
    RepeatableRead,
}

/// An assignment of UPDATE's SET list.
#[derive(Drop)]
pub struct Assign {
    pub col: u8,
    pub expr: Expr,
}

/// A statement of a session. INSERT has its tuples. A query, a SET list and a condition are shared with the slices that a command sends.
#[derive(Drop)]
pub enum Stmt {
    Begin(Level),
    Commit,
    Rollback,
    Select(Shared<Query>),
    Insert(Table, Seq<Seq<Expr>>),
    Update(Table, Shared<Seq<Assign>>, Shared<Option<Cond>>),
    Delete(Table, Shared<Option<Cond>>),
    Lock(Table, Mode),
}

impl Duplicate for Assign {
    fn copy(&self, alloc: Global) -> Mem<Assign> {
        Ok(Assign {
            col: self.col,
            expr: self.expr.copy(alloc)?,
        })
    }
}

impl Duplicate for Stmt {
    fn copy(&self, alloc: Global) -> Mem<Stmt> {
        match self {
            Stmt::Begin(level) => Ok(Stmt::Begin(*level)),
            Stmt::Commit => Ok(Stmt::Commit),
            Stmt::Rollback => Ok(Stmt::Rollback),
            Stmt::Select(query) => Ok(Stmt::Select(query.copy(alloc)?)),
            Stmt::Insert(table, tuples) => Ok(Stmt::Insert(*table, tuples.copy(alloc)?)),
            Stmt::Update(table, assigns, cond) => {
                let assigns = assigns.copy(alloc)?;
                Ok(Stmt::Update(*table, assigns, cond.copy(alloc)?))
            }
            Stmt::Delete(table, cond) => Ok(Stmt::Delete(*table, cond.copy(alloc)?)),
            Stmt::Lock(table, mode) => Ok(Stmt::Lock(*table, *mode)),
        }
    }
}
