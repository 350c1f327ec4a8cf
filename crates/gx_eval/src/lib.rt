//! The meaning of expressions and conditions on a row: evaluation of both, with the faults that it gives.
#![tactic(auto)]

mod arith;
mod column;
mod condition;
mod expression;
mod fault;

pub use condition::{decide, holds};
pub use expression::{eval, eval_int};
pub use fault::EvalFault;
