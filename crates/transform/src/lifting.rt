ghost use Rattle.std.specs.Prelude.{◌≡◌, ◌+◌, ◌≤◌, true};
ghost use Rattle.sets.specs.Sets.{in_limits};

use sets::shape::Shape;
use stages::stage::Lift;

// A lifting in sets of a shape, which have all the channels that it lists.
#[derive(Clone, Copy)]
pub(crate) struct Lifting {
    pub(crate) shape: Shape,
    pub(crate) lift: Lift,
    ghost limits: { in_limits shape ≡ true },
    ghost room: { lift.first + lift.count ≤ shape.channels },
}
