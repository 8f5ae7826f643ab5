ghost use Rattle.std.specs.Prelude.{◌≡◌, ◌≤◌};
ghost use Rattle.rules.specs.Lifted.{count_of};
ghost use Rattle.stages.specs.Plain.{plain_lift};
ghost use Rattle.transform.specs.Lined.{Lined};
ghost use Rattle.stages.specs.declared.stage.Axis.TheVariants.{Time, Channel};

use crate::lifting::Lifting;
use crate::lines::Lines;
use crate::long_lines::LongLines;
use stages::stage::Axis;

// Casts lose nothing, as the check proves: a `try_from` would have a failure to answer that cannot come.
impl Lifting {
    // The lines along the samples of each channel that the lifting lists.
    pub(crate) fn along_time(&self) -> Lines
        requires { self.now.lift.axis ≡ Time }
        ensures { Lined self.now.shape (plain_lift self.now.lift) result }
    {
        let by = self.lift.distance();
        let first = self.lift.first_index(self.shape.origin as u32);
        Lines {
            start: self.lift.first * self.shape.samples + (first * by - self.shape.origin),
            by,
            line_count: self.lift.count,
            apart: self.shape.samples,
            first,
            count: self
                .lift
                .index_count(self.shape.origin as u32, self.shape.samples as u32),
        }
    }

    // The lines along the channels, one for each sample of a channel.
    fn along_channels(&self) -> Lines
        requires axis { self.now.lift.axis ≡ Channel }
        requires some { 1 ≤ self.now.lift.count }
        ensures { Lined self.now.shape (plain_lift self.now.lift) result }
    {
        Lines {
            start: self.lift.first * self.shape.samples,
            by: self.lift.distance() * self.shape.samples,
            line_count: self.shape.samples,
            apart: 1,
            first: self.lift.first_index(0),
            count: self.lift.index_count(0, self.lift.count as u32),
        }
    }

    pub(crate) fn long_lines(&self) -> LongLines
        requires { 2 ≤ count_of self.now.shape (plain_lift self.now.lift) }
        ensures { result.lifting ≡ self.now }
    {
        let lines = match self.lift.axis {
            Axis::Time => self.along_time(),
            Axis::Channel => self.along_channels(),
        };
        LongLines {
            lifting: *self,
            lines,
        }
    }
}
