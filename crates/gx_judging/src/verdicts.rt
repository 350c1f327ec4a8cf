// What is said of a trace.
ghost use Rattle.std.specs.Prelude.{◌≡◌};
ghost use Rattle.gx_judging.specs.Verdicts.{number_of};

/// A definition that a trace has to meet: of its writes and skips; of its statements, answers and tables; of its refusals; of the order of
/// its messages and clocks; of whom the detector's rounds name.
#[derive(Clone, Copy)]
pub enum Definition {
    Rows,
    Statements,
    Refusals,
    Order,
    Victims,
}

impl Definition {
    /// The number by which it is told.
    pub fn number(self) -> u8
        ensures { result ≡ number_of self }
    {
        match self {
            Definition::Rows => 8,
            Definition::Statements => 9,
            Definition::Refusals => 10,
            Definition::Order => 11,
            Definition::Victims => 13,
        }
    }
}

/// A trace is legal, or this is the first definition that it doesn't meet.
#[derive(Clone, Copy)]
pub enum Verdict {
    Legal,
    NotLegal(Definition),
}
