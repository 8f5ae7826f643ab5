ghost use Rattle.std.specs.Prelude.{◌+◌, ◌<◌, ◌≤◌, length};
ghost use Rattle.sets.specs.Sets.{rows_of};
ghost use Rattle.stages.specs.Channels.{row_after, taken, dep_after, dep_made};
ghost use Rattle.stages.specs.Made.{Narrowed, AllNarrowed};
ghost use Rattle.stages.specs.Plain.{plain_rows};

use crate::gather::{gathered, listed};
use crate::ranges::{lower, row_at};
use crate::stage::Dep;
use sets::span::Span;
use sets::span_list::SpanList;

// Stage and spans stay two values, as in `Stage::spans_after`.
impl Dep {
    // The span of row i, from 1 up.
    fn row_after(&self, spans: &SpanList, i: usize) -> Option<Span>
        requires row { (1 ≤ i) × (i < self.now.count) }
        requires inside { self.now.first + self.now.count ≤ length (rows_of spans.now) }
        ensures { Narrowed result (row_after (plain_rows self.now) (taken self.now.first self.now.count (rows_of spans.now)) i) }
    {
        let before = listed(i, |k| row_at(spans, self.first + k));
        let quotient = self.rows[i - 1];
        let span = row_at(spans, self.first + i);
        lower(&span, &quotient.reach(&before))
    }

    // The spans after the rows; none where a bound is beyond 32 bits.
    pub(crate) fn spans_after(&self, spans: &SpanList) -> Option<SpanList>
        requires { self.now.first + self.now.count ≤ length (rows_of spans.now) }
        ensures { let rows = plain_rows self.now in let bs = rows_of spans.now in AllNarrowed result (dep_made self.now.first rows bs) (dep_after self.now.first rows bs) }
    {
        gathered(spans.len(), |channel| {
            // Two tests: tried a match on `channel.checked_sub(self.first)`, and the proof didn't close.
            if self.first < channel && channel < self.first + self.count {
                self.row_after(spans, channel - self.first)
            } else {
                Some(row_at(spans, channel))
            }
        })
    }
}
