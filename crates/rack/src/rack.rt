ghost use Rattle.std.specs.Prelude.{◌≡◌, None};
ghost use Rattle.sets.specs.Sets.{rows_of};
ghost use Rattle.rack.specs.Calls.{answered, shape_refused, stage_refused, area_refused, Lists, Widens, Applies, Undoes};
ghost use Rattle.rack.specs.Of.{meaning};

use crate::stages::Stages;
use sets::refusal::Refusal;
use sets::shape::Shape;
use sets::span_list::SpanList;

// Refused where the shape is beyond its limits, or there is not one span for each channel.
fn one_span_each(shape: &Shape, spans: &SpanList) -> Result<(), Refusal>
    ensures { result ≡ answered (shape_refused shape.now (rows_of spans.now) None) }
{
    shape.check()?;
    if spans.len() != shape.channels {
        return Err(Refusal::SpanCount);
    }
    Ok(())
}

// The calls that every rack answers, for all values. They are the same for every rack, so that a rack is its stages.
// Shape, number, spans and area are passed apart: the caller keeps them in different places, and each call lends others of them.
pub trait Rack: Stages {
    // Refused where there is no such stage, or it does not fit.
    fn asked(&self, shape: &Shape, number: usize) -> Result<(), Refusal>
        ensures { result ≡ answered (stage_refused (meaning Self.Stages self.now) shape.now number None) }
    {
        if number >= self.count() {
            return Err(Refusal::NoSuchStage);
        }
        if !self.fit(shape.channels, number) {
            return Err(Refusal::DoesNotFit);
        }
        Ok(())
    }

    // Refused where a stage cannot be applied to, nor undone in, an area of so many samples with these spans.
    #[tactic(auto, unfolding(crate::specs::Calls::area_refused))]
    fn ready(
        &self,
        shape: &Shape,
        number: usize,
        spans: &SpanList,
        size: usize,
    ) -> Result<(), Refusal>
        ensures { result ≡ answered (area_refused (meaning Self.Stages self.now) shape.now number (rows_of spans.now) size) }
    {
        one_span_each(shape, spans)?;
        if size != shape.channels * shape.samples {
            return Err(Refusal::AreaLength);
        }
        self.asked(shape, number)?;
        self.widen(shape, number, spans).ok_or(Refusal::TooWide)?;
        Ok(())
    }

    // Writes the channels that a stage lists to the front of the list, and answers how many there are.
    // An array and a count, and no vector: no call allocates, and the bytes behind stay the caller's.
    #[tactic(auto, unfolding(crate::specs::Calls::list_refused))]
    fn list(&self, shape: &Shape, number: usize, list: &mut [u8; 64]) -> Result<usize, Refusal>
        ensures { Lists (meaning Self.Stages self.now) shape.now number list.old result list.new }
    {
        shape.check()?;
        self.asked(shape, number)?;
        // Counted by hand: n is the next free place and the answer, and a chain would count the places beside its items too.
        // Tried `filter` in the loop's head: the proof didn't close, as no index then tells which channels were passed over.
        // Casts lose nothing, as the check proves: a `try_from` would have a failure to answer that cannot come.
        let mut n = 0;
        for c in 0..shape.channels {
            if self.lists(shape, number, c) {
                list[n] = c as u8;
                n += 1;
            }
        }
        Ok(n)
    }

    // Puts the spans that a stage makes in the place of these.
    #[tactic(auto, unfolding(crate::specs::Calls::spans_refused))]
    fn spans(&self, shape: &Shape, number: usize, spans: &mut SpanList) -> Result<(), Refusal>
        ensures { Widens (meaning Self.Stages self.now) shape.now number (rows_of spans.old) result (rows_of spans.new) }
    {
        one_span_each(shape, spans)?;
        self.asked(shape, number)?;
        *spans = self.widen(shape, number, spans).ok_or(Refusal::TooWide)?;
        Ok(())
    }

    // Turns a set into what a stage makes of it. A set outside the spans becomes zeros.
    fn apply(
        &self,
        shape: &Shape,
        number: usize,
        spans: &SpanList,
        area: &mut [i32],
    ) -> Result<(), Refusal>
        ensures { Applies (meaning Self.Stages self.now) shape.now number (rows_of spans.now) area.old result area.new }
    {
        self.ready(shape, number, spans, area.len())?;
        if !spans.hold(shape, area) {
            area.fill(0);
            return Err(Refusal::OutsideSpan);
        }
        self.forward(shape, number, spans, area);
        Ok(())
    }

    // Turns an area back into the set within the spans that a stage makes it of. Where there is none it becomes zeros.
    fn undo(
        &self,
        shape: &Shape,
        number: usize,
        spans: &SpanList,
        area: &mut [i32],
    ) -> Result<(), Refusal>
        ensures { Undoes (meaning Self.Stages self.now) shape.now number (rows_of spans.now) area.old result area.new }
    {
        self.ready(shape, number, spans, area.len())?;
        if !self.backward(shape, number, spans, area) {
            area.fill(0);
            return Err(Refusal::Foreign);
        }
        Ok(())
    }
}
