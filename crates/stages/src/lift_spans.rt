ghost use Rattle.std.specs.Prelude.{◌≡◌, ◌+◌, ◌≤◌, length};
ghost use Rattle.sets.specs.Sets.{rows_of};
ghost use Rattle.stages.specs.Lifting.{lists_channel, lift_after, lift_made};
ghost use Rattle.stages.specs.Made.{LiftMakes};
ghost use Rattle.stages.specs.Plain.{plain_lift};

use crate::checked::Checked;
use crate::stage::{Axis, Lift};
use sets::span_list::SpanList;

impl Lift {
    // Whether the lifting lists a channel.
    pub(crate) fn lists(&self, channel: usize) -> bool
        ensures { result ≡ lists_channel (plain_lift self.now) channel }
    {
        (self.first..self.first + self.count).contains(&channel)
    }

    // The spans after the lifting; none where a bound is beyond 32 bits. Stage and spans stay two values, as in `Stage::spans_after`.
    pub(crate) fn spans_after(&self, checked: &Checked, spans: &SpanList) -> Option<SpanList>
        requires { self.now.first + self.now.count ≤ length (rows_of spans.now) }
        ensures { LiftMakes result (lift_made checked.now.shape) (lift_after checked.now.shape) self.now (rows_of spans.now) }
    {
        match self.axis {
            Axis::Time => self.along_samples(checked, spans),
            Axis::Channel => self.along_channels(spans),
        }
    }
}
