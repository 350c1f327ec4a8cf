ghost use Rattle.std.specs.Prelude.{◌≡◌};
ghost use Rattle.gx_sql.specs.Progress as said;
ghost use Rattle.gx_sql.specs.Script as script;

use gx_grammar::{Fault, LineLimit, ReadError};
use gx_ids::OutOfMemory;
use gx_resolve::{NameFault, ResolveError};
use std::alloc::AllocFailed;

/// The limits of a script: 16 segments, 64 sessions, 64 tables, 64 groups, 32 columns of a table, 100,000 lines, 63 bytes of a name,
/// 1,000 bytes of a text, and of an expression 100 parentheses, NOTs and minus signs around a token and 1,000 operators.
#[derive(Clone, Copy)]
pub enum Limit {
    Segments,
    Sessions,
    Tables,
    Groups,
    Columns,
    Lines,
    Name,
    Text,
    Depth,
}

/// What is wrong with a line.
#[derive(Clone, Copy)]
pub enum LineFault {
    Syntax,
    UnknownTable,
    UnknownColumn,
    TableExists,
    TypeMismatch,
    KeyUpdate,
    TooMany(Limit),
}

/// Why bytes are no script: the first line that has a fault, counted from 1, or the place from 0 of the first byte of
/// the first sequence that isn't UTF-8.
#[derive(Clone, Copy)]
pub enum Refusal {
    Syntax(u32),
    UnknownTable(u32),
    UnknownColumn(u32),
    TableExists(u32),
    TypeMismatch(u32),
    KeyUpdate(u32),
    TooMany(u32, Limit),
    NotUtf8(u64),
    OutOfMemory,
}

/// Why a line adds nothing.
#[derive(Clone, Copy)]
pub enum LineError {
    Fault(LineFault),
    OutOfMemory,
}

/// What is wrong with a line by its names or kinds.
pub fn fault_of(fault: NameFault) -> LineFault
    ensures { result ≡ said.fault_of fault }
{
    match fault {
        NameFault::Syntax => LineFault::Syntax,
        NameFault::UnknownTable => LineFault::UnknownTable,
        NameFault::UnknownColumn => LineFault::UnknownColumn,
        NameFault::TableExists => LineFault::TableExists,
        NameFault::TypeMismatch => LineFault::TypeMismatch,
        NameFault::KeyUpdate => LineFault::KeyUpdate,
    }
}

/// What is wrong with a line by its tokens.
fn fault_of_tokens(fault: Fault) -> LineFault
    ensures { result ≡ script.fault_of_tokens fault }
{
    match fault {
        Fault::Syntax => LineFault::Syntax,
        Fault::TooMany(LineLimit::Segments) => LineFault::TooMany(Limit::Segments),
        Fault::TooMany(LineLimit::Name) => LineFault::TooMany(Limit::Name),
        Fault::TooMany(LineLimit::Text) => LineFault::TooMany(Limit::Text),
        Fault::TooMany(LineLimit::Depth) => LineFault::TooMany(Limit::Depth),
    }
}

impl From<ResolveError> for LineError {
    ghost use Rattle.gx_sql.specs.Errors.{IsOfNames};

    ghost from_gives = { IsOfNames };

    fn from(error: ResolveError) -> LineError {
        match error {
            ResolveError::Fault(fault) => LineError::Fault(fault_of(fault)),
            ResolveError::OutOfMemory => LineError::OutOfMemory,
        }
    }
}

impl From<ReadError> for LineError {
    ghost use Rattle.gx_sql.specs.Errors.{IsOfTokens};

    ghost from_gives = { IsOfTokens };

    fn from(error: ReadError) -> LineError {
        match error {
            ReadError::Fault(fault, _left) => LineError::Fault(fault_of_tokens(fault)),
            ReadError::OutOfMemory => LineError::OutOfMemory,
        }
    }
}

impl From<OutOfMemory> for LineError {
    ghost use Rattle.std.specs.Prelude.{◌≡◌};
    ghost use Rattle.gx_sql.specs.declared.refusal.LineError.TheVariants as error;

    ghost from_gives = { λ _ e. e ≡ error.OutOfMemory };

    fn from(_error: OutOfMemory) -> LineError {
        LineError::OutOfMemory
    }
}

impl<T: Drop> From<AllocFailed<T>> for LineError {
    ghost use Rattle.std.specs.Prelude.{◌≡◌};
    ghost use Rattle.gx_sql.specs.declared.refusal.LineError.TheVariants as error;

    ghost from_gives = { λ _ e. e ≡ error.OutOfMemory };

    fn from(_error: AllocFailed<T>) -> LineError {
        LineError::OutOfMemory
    }
}
