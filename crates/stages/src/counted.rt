ghost use Rattle.std.specs.Prelude.{◌≡◌, ◌-◌, take};
ghost use Rattle.stages.specs.Plain.{taps_of, steps_of};

use crate::quotient::Quotient;
use crate::stage::{Dep, Lift, Step};

impl Quotient {
    // The taps in use.
    pub fn taps(&self) -> &[i16]
        ensures { result.now ≡ taps_of self.now }
    {
        &self.taps[..self.tap_count]
    }
}

impl Lift {
    // The steps in use.
    pub fn steps(&self) -> &[Step]
        ensures { result.now ≡ steps_of self.now }
    {
        &self.steps[..self.step_count]
    }
}

impl Dep {
    // The rows in use, one fewer than the channels.
    pub fn rows(&self) -> &[Quotient]
        ensures { result.now ≡ take (self.now.count - 1) self.now.rows }
    {
        &self.rows[..self.count - 1]
    }
}
