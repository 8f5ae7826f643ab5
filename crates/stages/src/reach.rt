ghost use Rattle.std.specs.Prelude.{◌≡◌, ◌^◌, ◌≤◌, pos, neg_ℤ, ◌≤ℤ◌};

use crate::floor::shifted;
use sets::span::Span;

// The least and the greatest of a quotient, or of any other number that may be wider than a sample. Not one generic type with `Span`:
// its limits are other ones.
#[derive(Clone, Copy)]
pub struct Reach {
    pub least: i64,
    pub greatest: i64,
    ghost ordered: { least ≤ℤ greatest },
    ghost low: { neg_ℤ (pos (2 ^ 50)) ≤ℤ least },
    ghost high: { greatest ≤ℤ pos (2 ^ 50) },
}

// A span is what another is raised or lowered by.
impl From<Span> for Reach {
    ghost use Rattle.sets.specs.Sets.{bounds_of};
    ghost use Rattle.stages.specs.Made.{wide_of};

    ghost from_gives = { λ s r. wide_of r ≡ bounds_of s };

    fn from(span: Span) -> Reach {
        Reach {
            least: i64::from(span.least),
            greatest: i64::from(span.greatest),
        }
    }
}

impl Reach {
    ghost use Rattle.stages.specs.Floors.{floor_over};
    ghost use Rattle.stages.specs.Made.{between, wide_of};

    // The numbers with their signs turned.
    pub(crate) fn negated(&self) -> Reach
        ensures { wide_of result ≡ between (neg_ℤ self.now.greatest) (neg_ℤ self.now.least) }
    {
        Reach {
            least: -self.greatest,
            greatest: -self.least,
        }
    }

    // The floors of both over 2^e.
    pub(crate) fn floored(&self, e: u32) -> Reach
        requires { e ≤ 16 }
        ensures { wide_of result ≡ between (floor_over self.now.least e) (floor_over self.now.greatest e) }
    {
        let least = shifted(self.least, e);
        let greatest = shifted(self.greatest, e);
        Reach { least, greatest }
    }
}
