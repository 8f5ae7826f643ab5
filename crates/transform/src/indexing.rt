ghost use Rattle.stages.specs.Plain.{plain_lift};
ghost use Rattle.transform.specs.Indices.{IndexedAs};

use crate::lifting::Lifting;
use stages::indexed::Indexed;
use stages::stage::Axis;

// Casts lose nothing, as the check proves: a `try_from` would have a failure to answer that cannot come.
impl Lifting {
    // What the lifting does to its lines, by how many indices each has.
    pub(crate) fn indexed(&self) -> Indexed
        ensures { IndexedAs self.now.shape (plain_lift self.now.lift) result }
    {
        match self.lift.axis {
            Axis::Time => self
                .lift
                .indexed(self.shape.origin as u32, self.shape.samples as u32),
            Axis::Channel => self.lift.indexed(0, self.lift.count as u32),
        }
    }
}
