ghost use Rattle.std.specs.Prelude.{◌<◌};
ghost use Rattle.transform.specs.Parts.{both};
ghost use Rattle.transform.specs.Runs.{at_run};
ghost use Rattle.transform.specs.Turns.{Sized, TurnedAt, on_line};

use crate::row::Row;
use crate::run::Run;

// The area is passed apart, as in `Turn`.
impl Run {
    // The step on one channel.
    fn on_line<const UNDO: bool>(&self, line: usize, area: &mut [i32])
        requires sized { Sized self.now.turn area.old }
        requires line { line < self.now.turn.on_lines.lines.line_count }
        ensures { TurnedAt UNDO self.now.turn (both (at_run self.now) (on_line self.now.turn line)) area.old area.new }
    {
        let from = self.turn.sources(line, self.start);
        let lines = &self.turn.on_lines.lines;
        let row = Row {
            quotient: self.turn.step.quotient,
            from,
            to: lines.start + self.start * lines.by + line * lines.apart,
            by: 2 * lines.by,
            count: self.count,
        };
        row.turn::<UNDO>(area);
    }

    // The step on every channel of the lifting.
    pub(crate) fn on_all<const UNDO: bool>(&self, area: &mut [i32])
        requires { Sized self.now.turn area.old }
        ensures { TurnedAt UNDO self.now.turn (at_run self.now) area.old area.new }
    {
        for line in 0..self.turn.on_lines.lines.line_count {
            self.on_line::<UNDO>(line, area);
        }
    }
}
