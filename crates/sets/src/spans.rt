ghost use Rattle.std.specs.Prelude.{◌≡◌, is_ok, MatchResult, int_le};
ghost use Rattle.sets.specs.declared.refusal.Refusal.TheVariants.{SpanOrder};

use crate::refusal::Refusal;
use crate::span::Span;

impl Span {
    // The span from `least` to `greatest`, refused where the first is above the second.
    pub fn new(least: i32, greatest: i32) -> Result<Span, Refusal>
        ensures test { is_ok result ≡ int_le least greatest }
        ensures cases { MatchResult result (λ s. (s.least ≡ least) × (s.greatest ≡ greatest)) (λ e. e ≡ SpanOrder) }
    {
        if least > greatest {
            return Err(Refusal::SpanOrder);
        }
        Ok(Span { least, greatest })
    }
}
