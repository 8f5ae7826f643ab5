ghost use Rattle.std.specs.Prelude.{◌≡◌};
ghost use Rattle.sets.specs.Sets.{bounds_of, rows_of};
ghost use Rattle.stages.specs.Channels.{luma, recoloured, rct_after, rct_made};
ghost use Rattle.stages.specs.Made.{Narrowed, AllNarrowed};

use crate::colour::luma;
use crate::gather::listed;
use crate::ranges::{lower, narrowed, row_at};
use crate::reach::Reach;
use crate::stage::Rct;
use sets::span::Span;
use sets::span_list::SpanList;

// The span of the first new channel.
fn luma_span(a: &Span, b: &Span, c: &Span) -> Option<Span>
    ensures { Narrowed result (luma (bounds_of a.now) (bounds_of b.now) (bounds_of c.now)) }
{
    narrowed(
        luma(a.least, b.least, c.least),
        luma(a.greatest, b.greatest, c.greatest),
    )
}

impl Rct {
    // The spans with three new ones in place.
    fn recoloured(&self, spans: &SpanList, y0: Span, y1: Span, y2: Span) -> SpanList
        ensures { rows_of result ≡ recoloured self.now.first (bounds_of y0) (bounds_of y1) (bounds_of y2) (rows_of spans.now) }
    {
        listed(spans.len(), |channel| {
            match channel.checked_sub(self.first) {
                Some(0) => y0,
                Some(1) => y1,
                Some(2) => y2,
                _ => row_at(spans, channel),
            }
        })
    }

    // The spans after the colour transform; none where a bound is beyond 32 bits.
    pub(crate) fn spans_after(&self, spans: &SpanList) -> Option<SpanList>
        ensures { AllNarrowed result (rct_made self.now.first (rows_of spans.now)) (rct_after self.now.first (rows_of spans.now)) }
    {
        let i0 = row_at(spans, self.first);
        let i1 = row_at(spans, self.first + 1);
        let i2 = row_at(spans, self.first + 2);
        let middle = Reach::from(i1);
        let y0 = luma_span(&i0, &i1, &i2)?;
        let y1 = lower(&i2, &middle)?;
        let y2 = lower(&i0, &middle)?;
        Some(self.recoloured(spans, y0, y1, y2))
    }
}
