// The paper's table: its rows as definitions and laws, in specs/; and why something is refused, as a value.
#![tactic(auto)]

ghost use Rattle.std.specs.Prelude.{◌≡◌};
ghost use Rattle.table.specs.Table.{given_at};
ghost use Rattle.table.specs.Causes.{number, told};

// Why a run, a file or an index is refused. The number behind each is the paper's.
#[derive(Clone, Copy, PartialEq, Eq)]
pub enum Cause {
    Cut = 1,
    Unknown = 2,
    Sizes = 3,
    Outside = 4,
    Beyond = 5,
    Twice = 6,
    Missing = 7,
    Behind = 8,
    Unrisen = 9,
    Scattered = 10,
    Flat = 11,
    Several = 12,
    OneCycle = 13,
    Short = 14,
    Negative = 15,
    UpOnly = 16,
}

// A cause, and the place of which it is told.
#[derive(Clone, Copy, PartialEq, Eq)]
pub struct Refusal {
    pub cause: Cause,
    pub place: usize,
}

impl Cause {
    // Its number in the paper's table.
    pub fn number(self) -> u8
        ensures { result ≡ number self }
    {
        self as u8
    }
}

impl Refusal {
    pub fn at(cause: Cause, place: usize) -> Refusal
        ensures { told result ≡ given_at (number cause) place }
    {
        Refusal { cause, place }
    }
}
