ghost use Rattle.std.specs.Prelude.{◌≡◌};
ghost use Rattle.gx_eval.specs.Faults.{eval_fault};
ghost use Rattle.gx_eval.specs.declared.fault.EvalFault.TheVariants.{OutOfMemory as NoMemory};

use gx_ids::OutOfMemory;
use gx_meaning::ArithFault;
use thiserror::Error;

/// A fault of evaluation: that of its meaning, or want of memory for the copy of a text.
#[derive(Clone, Copy, Debug, Error)]
pub enum EvalFault {
    #[error("overflow")]
    Overflow,
    #[error("division by zero")]
    DivisionByZero,
    #[error("out of memory")]
    OutOfMemory,
}

impl From<ArithFault> for EvalFault {
    ghost from_gives = { λ fault result. result ≡ eval_fault fault };

    fn from(fault: ArithFault) -> EvalFault {
        match fault {
            ArithFault::Overflow => EvalFault::Overflow,
            ArithFault::DivisionByZero => EvalFault::DivisionByZero,
        }
    }
}

impl From<OutOfMemory> for EvalFault {
    ghost from_gives = { λ _ result. result ≡ NoMemory };

    fn from(_fault: OutOfMemory) -> EvalFault {
        EvalFault::OutOfMemory
    }
}
