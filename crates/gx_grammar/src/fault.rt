use gx_ids::OutOfMemory;
use std::alloc::AllocFailed;

/// The limits that tokens of a line may pass, in the order in which one of them is named where a token passes several.
#[derive(Clone, Copy)]
pub enum LineLimit {
    Segments,
    Name,
    Text,
    Depth,
}

/// How much a line may have: the greatest number of segments, the bytes of a name and of a text, what may stand open
/// around a token of an expression, and the operators of an expression.
#[derive(Clone, Copy)]
pub struct Limits {
    pub segments: u64,
    pub name: usize,
    pub text: usize,
    pub depth: usize,
    pub operators: usize,
}

/// What is wrong with a token: with it no line goes on, or none within the limits.
#[derive(Clone, Copy)]
pub enum Fault {
    Syntax,
    TooMany(LineLimit),
}

/// Why nothing was read: what is wrong with a token, and how many tokens there are from that one on, which are none where
/// tokens are missing; or there was no memory.
#[derive(Clone, Copy)]
pub enum ReadError {
    Fault(Fault, usize),
    OutOfMemory,
}

impl From<OutOfMemory> for ReadError {
    ghost use Rattle.std.specs.Prelude.{◌≡◌};
    ghost use Rattle.gx_grammar.specs.declared.fault.ReadError.TheVariants as error;

    ghost from_gives = { λ _ e. e ≡ error.OutOfMemory };

    fn from(_error: OutOfMemory) -> ReadError {
        ReadError::OutOfMemory
    }
}

impl<T: Drop> From<AllocFailed<T>> for ReadError {
    ghost use Rattle.std.specs.Prelude.{◌≡◌};
    ghost use Rattle.gx_grammar.specs.declared.fault.ReadError.TheVariants as error;

    ghost from_gives = { λ _ e. e ≡ error.OutOfMemory };

    fn from(_error: AllocFailed<T>) -> ReadError {
        ReadError::OutOfMemory
    }
}
