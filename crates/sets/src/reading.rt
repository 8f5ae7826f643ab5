ghost use Rattle.std.specs.Prelude.{◌≡◌, ◌<◌, ◌≤◌, length, MatchOption, slice_index_or};
ghost use Rattle.sets.specs.Ordered.{no_bounds};
ghost use Rattle.sets.specs.Sets.{bounds_of, rows_of};

use crate::span::Span;
use crate::span_list::SpanList;

impl SpanList {
    // How many spans the list has.
    pub fn len(&self) -> usize
        ensures { result ≡ length (rows_of self.now) }
    {
        self.len
    }

    // The span of a row, and none past the end.
    pub fn get(&self, row: usize) -> Option<Span>
        ensures { MatchOption result (length (rows_of self.now) ≤ row) (λ s. (row < length (rows_of self.now)) × (bounds_of s ≡ slice_index_or (rows_of self.now) row no_bounds)) }
    {
        let found = self.rows[..self.len].get(row)?;
        // Made field by field: the list's rule says that a row is ordered, and `Span::new` would test it again.
        Some(Span {
            least: found.least,
            greatest: found.greatest,
        })
    }
}
