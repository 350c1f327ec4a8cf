ghost use Rattle.std.specs.Prelude.{◌≡◌, ◌≤◌, MatchOption};
ghost use Rattle.gx_modes.specs.Table.{number_of, conflict};
ghost use Rattle.gx_modes.specs.declared.modes.Mode.{Mode};

/// A lock's mode, from the weakest to the strongest (PostgreSQL manual, 13.3.1).
#[derive(Clone, Copy)]
pub enum Mode {
    AccessShare,
    RowShare,
    RowExclusive,
    ShareUpdateExclusive,
    Share,
    ShareRowExclusive,
    Exclusive,
    AccessExclusive,
}

impl Mode {
    /// The place in the order of the modes, from 1.
    pub fn number(self) -> u8
        ensures number { result ≡ number_of self }
        ensures least { 1 ≤ result }
        ensures greatest { result ≤ 8 }
    {
        match self {
            Mode::AccessShare => 1,
            Mode::RowShare => 2,
            Mode::RowExclusive => 3,
            Mode::ShareUpdateExclusive => 4,
            Mode::Share => 5,
            Mode::ShareRowExclusive => 6,
            Mode::Exclusive => 7,
            Mode::AccessExclusive => 8,
        }
    }

    /// The mode of a number, `None` where no mode has it.
    pub fn from_number(number: u8) -> Option<Mode>
        ensures { MatchOption result ((m : Mode) → ¬ (number ≡ number_of m)) (λ mode. number ≡ number_of mode) }
    {
        match number {
            1 => Some(Mode::AccessShare),
            2 => Some(Mode::RowShare),
            3 => Some(Mode::RowExclusive),
            4 => Some(Mode::ShareUpdateExclusive),
            5 => Some(Mode::Share),
            6 => Some(Mode::ShareRowExclusive),
            7 => Some(Mode::Exclusive),
            8 => Some(Mode::AccessExclusive),
            _ => None,
        }
    }
}

/// Whether two transactions can't hold these modes on one object together.
pub fn conflicts(a: Mode, b: Mode) -> bool
    ensures table { result ≡ conflict a b }
    ensures symmetric { result ≡ conflict b a }
{
    let other = b.number();
    match a {
        Mode::AccessShare => other == 8,
        Mode::RowShare => 7 <= other,
        Mode::RowExclusive => 5 <= other,
        Mode::ShareUpdateExclusive => 4 <= other,
        Mode::Share => 3 <= other && other != 5,
        Mode::ShareRowExclusive => 3 <= other,
        Mode::Exclusive => 2 <= other,
        Mode::AccessExclusive => true,
    }
}
