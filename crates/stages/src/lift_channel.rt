ghost use Rattle.std.specs.Prelude.{◌≡◌, ◌≤◌, if◌then◌else◌, Some, None};
ghost use Rattle.sets.specs.Sets.{rows_of};
ghost use Rattle.stages.specs.Lifting.{on_line, index_of, line_length, line_spans, line_ends, line_made, channels_after};
ghost use Rattle.stages.specs.Made.{LiftMakes};
ghost use Rattle.stages.specs.Plain.{plain_lift};

use crate::gather::listed;
use crate::line::{Indices, Line};
use crate::ranges::{join, row_at};
use crate::stage::Lift;
use sets::span_list::SpanList;

impl Lift {
    // How many indices the line of a lifting along the channels has.
    fn line_length(&self) -> usize
        ensures value { result ≡ line_length (plain_lift self.now) }
        ensures small { result ≤ 64 }
    {
        // Casts lose nothing, as the check proves: a `try_from` would have a failure to answer that cannot come.
        self.index_count(0, self.count as u32)
    }

    // The spans of the line's indices.
    fn line_spans(&self, spans: &SpanList) -> SpanList
        ensures { rows_of result ≡ line_spans (plain_lift self.now) (rows_of spans.now) }
    {
        listed(
            self.line_length(),
            |i| row_at(spans, self.first + i * self.distance()),
        )
    }

    // The spans of the line's indices after the lifting along the channels.
    fn line_ends(&self, spans: &SpanList) -> Option<SpanList>
        ensures { LiftMakes result line_made line_ends self.now (rows_of spans.now) }
    {
        let count = self.line_length();
        let along = self.line_spans(spans);
        if count < 2 {
            return Some(along);
        }
        let indices = Indices {
            extension: self.extension,
            count,
        };
        Line::Indices(indices).walk(&along, self)
    }

    // The index of a channel on the line, if it has one.
    fn index_of(&self, channel: usize) -> Option<usize>
        ensures { result ≡ (if on_line (plain_lift self.now) channel then Some (index_of (plain_lift self.now) channel) else None) }
    {
        let step = self.distance();
        let place = channel.checked_sub(self.first)?;
        (self.lists(channel) && place % step == 0).then_some(place / step)
    }

    // The spans after the lifting along the channels.
    pub(crate) fn along_channels(&self, spans: &SpanList) -> Option<SpanList>
        ensures { LiftMakes result line_made channels_after self.now (rows_of spans.now) }
    {
        let ends = self.line_ends(spans)?;
        Some(listed(spans.len(), |channel| {
            let span = row_at(spans, channel);
            self.index_of(channel)
                .map_or(span, |index| join(&span, &row_at(&ends, index)))
        }))
    }
}
