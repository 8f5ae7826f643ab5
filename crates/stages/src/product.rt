ghost use Rattle.std.specs.Prelude.{◌≡◌, ◌^◌, pos, ◌*ℤ◌, neg_ℤ, ◌≤ℤ◌};
ghost use Rattle.std.specs.Int.{int_max, int_min};

use crate::reach::Reach;
use sets::span::Span;

// A tap times a sample.
pub fn product(a: i16, b: i32) -> i64
    ensures value { result ≡ a *ℤ b }
    ensures low { neg_ℤ (pos (2 ^ 46)) ≤ℤ result }
    ensures high { result ≤ℤ pos (2 ^ 46) }
{
    i64::from(a) * i64::from(b)
}

// The least and the greatest of a tap times a sample of the span.
pub(crate) fn weighed(tap: i16, span: &Span) -> Reach
    ensures least { result.least ≡ int_min (tap *ℤ span.now.least) (tap *ℤ span.now.greatest) }
    ensures greatest { result.greatest ≡ int_max (tap *ℤ span.now.least) (tap *ℤ span.now.greatest) }
    ensures low { neg_ℤ (pos (2 ^ 46)) ≤ℤ result.least }
    ensures high { result.greatest ≤ℤ pos (2 ^ 46) }
{
    let low = product(tap, span.least);
    let high = product(tap, span.greatest);
    Reach {
        least: low.min(high),
        greatest: low.max(high),
    }
}
