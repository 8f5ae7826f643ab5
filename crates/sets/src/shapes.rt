ghost use Rattle.std.specs.Prelude.{◌≡◌, if◌then◌else◌, Ok, Err};
ghost use Rattle.sets.specs.declared.refusal.Refusal.TheVariants.{BadShape};
ghost use Rattle.sets.specs.Sets.{in_limits};

use crate::refusal::Refusal;
use crate::shape::Shape;

impl Shape {
    // Refused where a number of the shape is outside its limits.
    pub fn check(&self) -> Result<(), Refusal>
        ensures { result ≡ (if in_limits self.now then Ok tt else Err BadShape) }
    {
        if matches!(self.channels, 1..=64)
            && matches!(self.samples, 1..=1048576)
            && self.origin <= 1048575
        {
            Ok(())
        } else {
            Err(Refusal::BadShape)
        }
    }
}
