ghost use Rattle.std.specs.Prelude.{◌≡◌, Some, decimal};
ghost use Rattle.recipe.specs.Causes.{number_of};

use std::fmt;

// What is wrong with a text. The numbers are part of the format: reports show them.
#[derive(Clone, Copy)]
pub enum Cause {
    WordDue = 20,
    FieldCount = 21,
    NotListed = 22,
    OutsideLimit = 23,
    StageCount = 24,
    EndsInside = 25,
    TooLong = 26,
}

impl Cause {
    // The number by which the cause is known. A method, and no `From`: callers read which number it is.
    pub fn number(self) -> u8
        ensures { result ≡ number_of self }
    {
        self as u8 // the enum's own numbers
    }
}

// A cause is shown by its number. Like `Refusal`, by an impl of its own: `Display` belongs to each type.
impl fmt::Display for Cause {
    ghost output = { λ cause. Some (decimal (number_of cause)) };

    fn fmt<W: fmt::Write>(&self, f: &mut fmt::Formatter<W>) -> fmt::Result {
        let number = self.number();
        write!(f, "{number}")
    }
}

// A fault of a text, with the line and the field where it stands, both from 1. Line 0 is the whole text and field 0 the whole line:
// numbers and no Option, since a report shows them.
#[derive(Clone, Copy)]
pub struct Fault {
    pub cause: Cause,
    pub line: usize,
    pub field: usize,
}
