use crate::value::Value;
use gx_ids::{Boxed, Duplicate, Mem};
use std::alloc::Global;

#[derive(Clone, Copy)]
pub enum ArithOp {
    Add,
    Sub,
    Mul,
    Div,
    Rem,
}

/// An expression whose value is a whole number or a text. A column is named by its place in the table.
#[derive(Drop)]
pub enum Expr {
    Lit(Value),
    Col(u8),
    Neg(Boxed<Expr>),
    Bin(ArithOp, Boxed<Expr>, Boxed<Expr>),
}

impl Duplicate for Expr {
    fn copy(&self, alloc: Global) -> Mem<Expr> {
        match self {
            Expr::Lit(value) => Ok(Expr::Lit(value.copy(alloc)?)),
            Expr::Col(column) => Ok(Expr::Col(*column)),
            Expr::Neg(inner) => Ok(Expr::Neg(Boxed::new(alloc, inner.get().copy(alloc)?)?)),
            Expr::Bin(op, left, right) => {
                let left = Boxed::new(alloc, left.get().copy(alloc)?)?;
                let right = Boxed::new(alloc, right.get().copy(alloc)?)?;
                Ok(Expr::Bin(*op, left, right))
            }
        }
    }
}
