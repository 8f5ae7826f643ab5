ghost use Rattle.std.specs.Prelude.{◌≤◌};
ghost use Rattle.recipe.specs.Grammar.{at_hand};
ghost use Rattle.recipe.specs.Room.{room_in};
ghost use Rattle.recipe.specs.Tables.{table_of};

use crate::table::Recipe;

// A recipe as far as it is read, and how many lines of the stage at hand are still due.
// The table is the caller's: one of its own would have to be copied, which takes longer than to read a short text.
#[derive(Drop)]
pub(crate) struct Reading<'a> {
    pub(crate) recipe: &'a mut Recipe,
    pub(crate) left: usize,
    ghost fits: { left ≤ room_in (at_hand (table_of recipe.now)) },
}
