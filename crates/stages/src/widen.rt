ghost use Rattle.std.specs.Prelude.{◌≡◌, ◌≤◌, length};
ghost use Rattle.sets.specs.Sets.{rows_of};
ghost use Rattle.stages.specs.Made.{AllNarrowed};
ghost use Rattle.stages.specs.Plain.{plain};
ghost use Rattle.stages.specs.Stages.{first_of, end_of, fits_in, bounds_made, spans_after, spans_refused, Ruled, answered, spans_then};

use crate::checked::Checked;
use crate::stage::Stage;
use sets::refusal::Refusal;
use sets::shape::Shape;
use sets::span_list::SpanList;

// Closed kinds, one expression each: a trait would spread these matches over four impls.
impl Stage {
    // The first channel that the stage lists.
    #[tactic(auto, unfolding(crate::specs::Plain::plain))]
    pub fn first(&self) -> usize
        ensures { result ≡ first_of (plain self.now) }
    {
        match self {
            Stage::Lift(lift) => lift.first,
            Stage::Dep(dep) => dep.first,
            Stage::Rct(rct) => rct.first,
        }
    }

    // The channel after the last that the stage lists.
    #[tactic(auto, using(crate::proofs::Plains::rows_count), unfolding(crate::specs::Plain::plain))]
    fn end(&self) -> usize
        ensures { result ≡ end_of (plain self.now) }
    {
        match self {
            Stage::Lift(lift) => lift.first + lift.count,
            Stage::Dep(dep) => dep.first + dep.count,
            Stage::Rct(rct) => rct.first + 3,
        }
    }

    pub fn fits_in(&self, channels: usize) -> bool
        ensures { result ≡ fits_in (plain self.now) channels }
    {
        self.end() <= channels
    }

    // The spans after the stage; none where a bound is beyond 32 bits.
    // Stage, shape and spans stay apart: a type of them would be taken apart in every closure.
    #[tactic(auto, using(crate::proofs::Plains::rows_count), unfolding(crate::specs::Plain::plain))]
    fn spans_after(&self, checked: &Checked, spans: &SpanList) -> Option<SpanList>
        requires { end_of (plain self.now) ≤ length (rows_of spans.now) }
        ensures { let bs = rows_of spans.now in AllNarrowed result (bounds_made checked.now.shape (plain self.now) bs) (spans_after checked.now.shape (plain self.now) bs) }
    {
        match self {
            Stage::Lift(lift) => lift.spans_after(checked, spans),
            Stage::Dep(dep) => dep.spans_after(spans),
            Stage::Rct(rct) => rct.spans_after(spans),
        }
    }

    // The spans after the stage, or why there are none. The first two tests stand in `rack` too, where they are stated by a definition
    // of that crate: neither crate stands on the other.
    #[tactic(auto, using(crate::proofs::Refused::refusals), unfolding(crate::specs::Stages::spans_refused))]
    fn after(&self, shape: &Shape, spans: &SpanList) -> Result<SpanList, Refusal>
        ensures { let bs = rows_of spans.now in Ruled result (spans_refused shape.now (plain self.now) bs) (spans_after shape.now (plain self.now) bs) }
    {
        shape.check()?;
        if spans.len() != shape.channels {
            return Err(Refusal::SpanCount);
        }
        if !self.fits_in(shape.channels) {
            return Err(Refusal::DoesNotFit);
        }
        let checked = Checked { shape: *shape };
        self.spans_after(&checked, spans).ok_or(Refusal::TooWide)
    }

    // Replaces the spans by those after the stage.
    // Refused for a bad shape, a wrong number of spans, a stage that does not fit, or a bound beyond 32 bits; then the list stays.
    pub fn spans(&self, shape: &Shape, spans: &mut SpanList) -> Result<(), Refusal>
        ensures answer { result ≡ answered (spans_refused shape.now (plain self.now) (rows_of spans.old)) }
        ensures after { rows_of spans.new ≡ spans_then shape.now (plain self.now) (rows_of spans.old) }
    {
        *spans = self.after(shape, spans)?;
        Ok(())
    }
}
