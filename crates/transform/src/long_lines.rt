ghost use Rattle.std.specs.Prelude.{◌≤◌};
ghost use Rattle.stages.specs.Plain.{plain_lift};
ghost use Rattle.transform.specs.Lined.{Lined};

use crate::lifting::Lifting;
use crate::lines::Lines;

// A lifting whose lines have two indices or more, and where its lines run.
#[derive(Clone, Copy)]
pub(crate) struct LongLines {
    pub(crate) lifting: Lifting,
    pub(crate) lines: Lines,
    ghost lined: { Lined lifting.shape (plain_lift lifting.lift) lines },
    ghost many: { 2 ≤ lines.count },
}
