ghost use Rattle.std.specs.Prelude.{◌^◌, ◌≤◌};

use sets::shape::Shape;

// A shape whose places were found to be within their limits.
#[derive(Clone, Copy)]
pub(crate) struct Checked {
    pub(crate) shape: Shape,
    ghost early: { shape.origin ≤ 2 ^ 20 },
    ghost short: { shape.samples ≤ 2 ^ 20 },
}
