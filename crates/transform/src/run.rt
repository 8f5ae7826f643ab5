ghost use Rattle.std.specs.Prelude.{◌≡◌, ◌+◌, ◌*◌, ◌≤◌};
ghost use Rattle.stages.specs.declared.stage.Axis.TheVariants.{Time};
ghost use Rattle.transform.specs.Near.{Near};
ghost use Rattle.transform.specs.Turns.{Hits};

use crate::turn::Turn;

// A turn along the samples at `count` positions of its parity from `start` on, so far from the ends that all it reads is inside.
#[derive(Clone, Copy)]
pub(crate) struct Run {
    pub(crate) turn: Turn,
    pub(crate) start: usize,
    pub(crate) count: usize,
    ghost axis: { turn.on_lines.lifting.lift.axis ≡ Time },
    ghost near: { Near turn.step },
    ghost inside: { (32 ≤ start) × (start + 2 * count + 32 ≤ turn.on_lines.lines.count) },
    ghost hits: { Hits turn start },
}
