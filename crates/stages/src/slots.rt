ghost use Rattle.std.specs.Prelude.{◌<◌};
ghost use Rattle.sets.specs.Sets.{rows_of};
ghost use Rattle.stages.specs.Lifting.{slot_after, stepped, walked, ended};
ghost use Rattle.stages.specs.Made.{Narrowed, AllNarrowed, LiftMakes};
ghost use Rattle.stages.specs.Plain.{plain_step};
ghost use Rattle.stages.specs.Slots.{slot_of};

use crate::gather::{gathered, listed};
use crate::line::Line;
use crate::ranges::{raise, row_at};
use crate::stage::{Lift, Parity, Step};
use sets::span::Span;
use sets::span_list::SpanList;

impl Line {
    // The span of a slot after one step over all slots, each read before any is changed.
    fn moved(&self, slots: &SpanList, parity: Parity, step: &Step, slot: usize) -> Option<Span>
        requires { slot < 64 }
        ensures { Narrowed result (slot_after (slot_of self.now) parity (plain_step step.now) (rows_of slots.now) slot) }
    {
        let span = row_at(slots, slot);
        if slot % 2 != parity.number() {
            return Some(span);
        }
        let read = listed(step.quotient.taps().len(), |tap| {
            // Casts lose nothing, as the check proves: a `try_from` would have a failure to answer that cannot come.
            let index = step.source_index(parity, slot as u32, tap as u32);
            row_at(slots, self.slot(index))
        });
        raise(&span, &step.quotient.reach(&read))
    }

    // The slots after one step.
    fn stepped(&self, slots: &SpanList, parity: Parity, step: &Step) -> Option<SpanList>
        ensures { let next = stepped (slot_of self.now) parity (plain_step step.now) (rows_of slots.now) in AllNarrowed result next next }
    {
        gathered(slots.len(), |slot| self.moved(slots, parity, step, slot))
    }

    // The slots after all steps of a lifting, which change the parities in turn.
    pub(crate) fn walk(&self, slots: &SpanList, lift: &Lift) -> Option<SpanList>
        ensures { LiftMakes result (λ l. walked (slot_of self.now) l.parity) (λ l. ended (slot_of self.now) l.parity) lift.now (rows_of slots.now) }
    {
        let mut reached = *slots;
        let mut parity = lift.parity;
        for step in lift.steps() {
            reached = self.stepped(&reached, parity, step)?;
            parity = parity.other();
        }
        Some(reached)
    }
}
