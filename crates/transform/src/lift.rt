ghost use Rattle.std.specs.Prelude.{◌≡◌, ◌+◌, ◌<◌, ◌≤◌};
ghost use Rattle.stages.specs.declared.stage.Axis.TheVariants.{Time};
ghost use Rattle.transform.specs.Turned.{Turned};
ghost use Rattle.transform.specs.Turns.{Sized, Hits, TurnedAt, pass_of, at_position, from_to};

use crate::row::Row;
use crate::run::Run;
use crate::turn::Turn;
use stages::stage::Axis;

// So many positions from an end of a line on, all that a step with an offset of -8 to 8 reads is inside.
const MARGIN: usize = 32;

// Each function asks that the area has as many samples as the sets: a type of both would have to hold the lent area. `Hits` is asked
// of a number: a type of it would be made anew for each position.
impl Turn {
    // The step at position j of every line.
    fn position<const UNDO: bool>(&self, j: usize, area: &mut [i32])
        requires sized { Sized self.now area.old }
        requires inside { j < self.now.on_lines.lines.count }
        requires hits { Hits self.now j }
        ensures { TurnedAt UNDO self.now (at_position self.now j) area.old area.new }
    {
        let from = self.sources(0, j);
        let lines = &self.on_lines.lines;
        let row = Row {
            quotient: self.step.quotient,
            from,
            to: lines.start + j * lines.by,
            by: lines.apart,
            count: lines.line_count,
        };
        row.turn::<UNDO>(area);
    }

    // The step at the positions of its parity from `from` on and below `to`.
    fn positions<const UNDO: bool>(&self, from: usize, to: usize, area: &mut [i32])
        requires sized { Sized self.now area.old }
        requires inside { (from ≤ to + 1) × (to ≤ self.now.on_lines.lines.count) }
        requires hits { Hits self.now from }
        ensures { TurnedAt UNDO self.now (from_to self.now from to) area.old area.new }
    {
        for j in (from..to).step_by(2) {
            self.position::<UNDO>(j, area);
        }
    }

    // The step along the samples, at the positions of its parity from `from` on. Those near the ends are worked out one by one, and all
    // where the offset is none that a recipe may write.
    fn along_samples<const UNDO: bool>(&self, from: usize, area: &mut [i32])
        requires sized { Sized self.now area.old }
        requires axis { self.now.on_lines.lifting.lift.axis ≡ Time }
        requires inside { (from ≤ 1) × (Hits self.now from) }
        ensures { TurnedAt UNDO self.now (from_to self.now from self.now.on_lines.lines.count) area.old area.new }
    {
        let end = self.on_lines.lines.count;
        let start = from + MARGIN;
        let near = (-8..=8).contains(&self.step.offset);
        if !near || end < start + MARGIN {
            self.positions::<UNDO>(from, end, area);
            return;
        }
        let run = Run {
            turn: *self,
            start,
            count: (end - start - MARGIN) / 2,
        };
        self.positions::<UNDO>(from, start, area);
        run.on_all::<UNDO>(area);
        self.positions::<UNDO>(start + 2 * run.count, end, area);
    }

    // The step at all positions of its parity.
    pub(crate) fn everywhere<const UNDO: bool>(&self, area: &mut [i32])
        requires { Sized self.now area.old }
        ensures { Turned UNDO (pass_of self.now) area.old area.new }
    {
        let lines = &self.on_lines.lines;
        let from = (lines.first + self.parity.number()) % 2;
        match self.on_lines.lifting.lift.axis {
            Axis::Time => self.along_samples::<UNDO>(from, area),
            Axis::Channel => self.positions::<UNDO>(from, lines.count, area),
        }
    }
}
