ghost use Rattle.std.specs.Prelude.{◌≡◌, [], ◌∷◌, ◌++◌, length, is_ok, if◌then◌else◌, Ok, Err, nat_lt, nat_le, MatchResult, replicate};
ghost use Rattle.sets.specs.declared.refusal.Refusal.TheVariants.{SpanCount};
ghost use Rattle.sets.specs.Sets.{bounds_of, rows_of};

use crate::bounds::NO_BOUNDS;
use crate::refusal::Refusal;
use crate::span::Span;
use crate::span_list::SpanList;

impl SpanList {
    // The empty list.
    pub fn new() -> SpanList
        ensures { rows_of result ≡ [] }
    {
        SpanList {
            rows: [NO_BOUNDS; 64],
            len: 0,
        }
    }

    // Puts a span at the end. A 65th is refused, and the list stays.
    pub fn push(&mut self, span: Span) -> Result<(), Refusal>
        ensures answer { result ≡ (if nat_lt (length (rows_of self.old)) 64 then Ok tt else Err SpanCount) }
        ensures rows { rows_of self.new ≡ (if is_ok result then rows_of self.old ++ bounds_of span ∷ [] else rows_of self.old) }
    {
        if self.len >= 64 {
            return Err(Refusal::SpanCount);
        }
        self.rows[self.len] = span.into();
        self.len += 1;
        Ok(())
    }

    // The same span for each of so many channels. More than 64 are refused.
    pub fn repeat(span: Span, channels: usize) -> Result<SpanList, Refusal>
        ensures test { is_ok result ≡ nat_le channels 64 }
        ensures cases { MatchResult result (λ l. rows_of l ≡ replicate channels (bounds_of span)) (λ e. e ≡ SpanCount) }
    {
        if channels > 64 {
            return Err(Refusal::SpanCount);
        }
        Ok(SpanList {
            rows: [span.into(); 64],
            len: channels,
        })
    }
}
