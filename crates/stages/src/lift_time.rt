ghost use Rattle.std.specs.Prelude.{◌≡◌, ◌+◌, ◌≤◌, [], ◌∷◌, length};
ghost use Rattle.sets.specs.Sets.{bounds_of, rows_of};
ghost use Rattle.stages.specs.Lifting.{channel_ends, channel_made, samples_made, samples_after};
ghost use Rattle.stages.specs.Made.{ChannelMakes, LiftMakes};

use crate::checked::Checked;
use crate::gather::gathered;
use crate::indexed::Indexed;
use crate::line::Line;
use crate::ranges::{join, raise, row_at};
use crate::reach::Reach;
use crate::stage::Lift;
use sets::span::Span;
use sets::span_list::SpanList;

// A list of two spans.
fn two(a: Span, b: Span) -> SpanList
    ensures { rows_of result ≡ bounds_of a ∷ bounds_of b ∷ [] }
{
    let mut list = SpanList::new();
    // there is room
    let _ = list.push(a);
    let _ = list.push(b);
    list
}

impl Lift {
    // The spans of the even and of the odd indices of a channel after the lifting along its samples.
    fn channel_ends(&self, checked: &Checked, span: &Span) -> Option<SpanList>
        ensures { LiftMakes result (channel_made checked.now.shape) (channel_ends checked.now.shape) self.now (bounds_of span.now) }
    {
        let pair = two(*span, *span);
        // Casts lose nothing, as the check proves: a `try_from` would have a failure to answer that cannot come.
        match self.indexed(checked.shape.origin as u32, checked.shape.samples as u32) {
            Indexed::Many => Line::Parities.walk(&pair, self),
            Indexed::LoneOdd => Some(two(raise(span, &Reach::from(*span))?, *span)),
            Indexed::Still => Some(pair),
        }
    }

    // The span of a channel after the lifting along its samples.
    fn channel_after(&self, checked: &Checked, span: &Span) -> Option<Span>
        ensures { ChannelMakes result checked.now.shape self.now (bounds_of span.now) }
    {
        let ends = self.channel_ends(checked, span)?;
        let both = join(&row_at(&ends, 0), &row_at(&ends, 1));
        Some(join(span, &both))
    }

    // The spans after the lifting along the samples. Stage and spans stay two values, as in `Stage::spans_after`.
    pub(crate) fn along_samples(&self, checked: &Checked, spans: &SpanList) -> Option<SpanList>
        requires { self.now.first + self.now.count ≤ length (rows_of spans.now) }
        ensures { LiftMakes result (samples_made checked.now.shape) (samples_after checked.now.shape) self.now (rows_of spans.now) }
    {
        gathered(spans.len(), |channel| {
            let span = row_at(spans, channel);
            if self.lists(channel) {
                self.channel_after(checked, &span)
            } else {
                Some(span)
            }
        })
    }
}
