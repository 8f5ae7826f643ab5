ghost use Rattle.std.specs.Prelude.{◌≡◌, ◌+◌, ◌≤◌, true};
ghost use Rattle.sets.specs.Sets.{in_limits};

use sets::shape::Shape;
use stages::stage::Dep;

// Dependency rows in sets of a shape, which have all the channels that the rows take.
// A type apart from `Lifting`: a generic one would need a trait for first and count alone.
#[derive(Clone, Copy)]
pub(crate) struct DepRows {
    pub(crate) shape: Shape,
    pub(crate) dep: Dep,
    ghost limits: { in_limits shape ≡ true },
    ghost room: { dep.first + dep.count ≤ shape.channels },
}
