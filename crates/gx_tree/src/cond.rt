use crate::expr::Expr;
use gx_ids::{Boxed, Duplicate, Mem};
use std::alloc::Global;

#[derive(Clone, Copy)]
pub enum CmpOp {
    Eq,
    Ne,
    Lt,
    Le,
    Gt,
    Ge,
}

/// A condition on a row. A comparison is between two expressions of one kind.
#[derive(Drop)]
pub enum Cond {
    Cmp(CmpOp, Expr, Expr),
    And(Boxed<Cond>, Boxed<Cond>),
    Or(Boxed<Cond>, Boxed<Cond>),
    Not(Boxed<Cond>),
}

impl Duplicate for Cond {
    fn copy(&self, alloc: Global) -> Mem<Cond> {
        match self {
            Cond::Cmp(op, left, right) => {
                let left = left.copy(alloc)?;
                let right = right.copy(alloc)?;
                Ok(Cond::Cmp(*op, left, right))
            }
            Cond::And(left, right) => {
                let left = Boxed::new(alloc, left.get().copy(alloc)?)?;
                let right = Boxed::new(alloc, right.get().copy(alloc)?)?;
                Ok(Cond::And(left, right))
            }
            Cond::Or(left, right) => {
                let left = Boxed::new(alloc, left.get().copy(alloc)?)?;
                let right = Boxed::new(alloc, right.get().copy(alloc)?)?;
                Ok(Cond::Or(left, right))
            }
            Cond::Not(inner) => Ok(Cond::Not(Boxed::new(alloc, inner.get().copy(alloc)?)?)),
        }
    }
}
