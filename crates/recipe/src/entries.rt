ghost use Rattle.std.specs.Prelude.{◌≡◌, ◌<◌, [], ◌∷◌, ◌++◌, length};
ghost use Rattle.std.specs.List.{slice_get};
ghost use Rattle.stages.specs.Plain.{plain};
ghost use Rattle.recipe.specs.Tables.{stages_of, table_of};

use crate::table::Recipe;
use stages::stage::{Rct, Stage};

impl Recipe {
    // A recipe of no stages.
    pub fn new() -> Recipe
        ensures { table_of result ≡ [] }
    {
        Recipe {
            stages: [Stage::Rct(Rct { first: 0 }); 16],
            len: 0,
        }
    }

    pub fn len(&self) -> usize
        ensures { result ≡ length (stages_of self.now) }
    {
        self.len // at most 16
    }

    // The stages, in the order of their lines.
    pub fn stages(&self) -> &[Stage]
        ensures { result.now ≡ stages_of self.now }
    {
        &self.stages[..self.len]
    }

    // Stage `k`, from 0, and none past the last.
    pub fn get(&self, k: usize) -> Option<Stage>
        ensures { result ≡ slice_get (stages_of self.now) k }
    {
        self.stages().get(k).copied()
    }

    // Puts a stage behind the others.
    pub(crate) fn push(&mut self, stage: Stage)
        requires { length (stages_of self.old) < 16 }
        ensures { table_of self.new ≡ table_of self.old ++ plain stage ∷ [] }
    {
        self.stages[self.len] = stage;
        self.len += 1;
    }
}
