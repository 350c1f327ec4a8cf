use thiserror::Error;

/// A fault of whole-number evaluation.
#[derive(Clone, Copy, Debug, Error)]
pub enum ArithFault {
    #[error("overflow")]
    Overflow,
    #[error("division by zero")]
    DivisionByZero,
}
