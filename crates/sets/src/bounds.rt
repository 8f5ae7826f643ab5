ghost use Rattle.std.specs.Prelude.{◌≡◌};

use crate::span::Span;

// A least and a greatest number, as a list of spans keeps them: plain numbers, whose order is a rule of the list's type.
#[derive(Clone, Copy)]
pub struct Bounds {
    pub least: i32,
    pub greatest: i32,
}

// What is read past the end of a list: 0 alone lies within.
pub(crate) const NO_BOUNDS: Bounds = Bounds {
    least: 0,
    greatest: 0,
};

impl From<Span> for Bounds {
    ghost use Rattle.sets.specs.Sets.{bounds_of};

    ghost from_gives = { λ span bounds. bounds ≡ bounds_of span };

    fn from(span: Span) -> Bounds {
        Bounds {
            least: span.least,
            greatest: span.greatest,
        }
    }
}
