ghost use Rattle.std.specs.Prelude.{◌≡◌, Some, decimal};
ghost use Rattle.sets.specs.Refusals.{number_of};

use std::fmt;

// Why a call is refused. The numbers are part of the format: reports and images show them.
#[derive(Clone, Copy)]
pub enum Refusal {
    BadShape = 1,
    SpanCount = 2,
    NoSet = 3,
    AreaLength = 4,
    LedgerFull = 5,
    LedgerEmpty = 6,
    NoSuchStage = 7,
    DoesNotFit = 8,
    TooWide = 9,
    OutsideSpan = 10,
    Foreign = 11,
    SpanOrder = 12,
    BadPicks = 13,
}

impl Refusal {
    // The number by which the refusal is known. A method, and no `From`: callers read which number it is.
    pub fn number(self) -> u8
        ensures { result ≡ number_of self }
    {
        self as u8
    }
}

// A refusal is shown by its number.
impl fmt::Display for Refusal {
    ghost output = { λ refusal. Some (decimal (number_of refusal)) };

    fn fmt<W: fmt::Write>(&self, f: &mut fmt::Formatter<W>) -> fmt::Result {
        let number = self.number();
        write!(f, "{number}")
    }
}
