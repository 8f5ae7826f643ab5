ghost use Rattle.std.specs.Prelude.{◌≤◌, Some};
ghost use Rattle.recipe.specs.Room.{room_in};
ghost use Rattle.stages.specs.Plain.{plain};

use stages::stage::Stage;

// A stage as its first line begins it, and how many of its lines are still due.
#[derive(Clone, Copy)]
pub(crate) struct Begun {
    pub(crate) stage: Stage,
    pub(crate) left: usize,
    ghost fits: { left ≤ room_in (Some (plain stage)) },
}
