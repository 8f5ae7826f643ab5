ghost use Rattle.std.specs.Prelude.{length};
ghost use Rattle.recipe.specs.Tables.{table_of, stages_of};
ghost use Rattle.recipe.specs.Numbered.{recipe_stage};
ghost use Rattle.std.proofs.Common.{arith};
ghost use Rattle.std.proofs.lemmas.List.{length-map, length-take};
ghost use Rattle.stages.specs.Plain.{plain};

use crate::table::Recipe;
use stages::stage::Stage;
use stages::table::Table;

// A recipe's table: a stage is the same for any number of channels.
impl Table for Recipe {
    ghost size = { λ r. length (table_of r) };

    ghost entry = { λ r c k. recipe_stage r k };

    ghost few = { λ s. let f = s.full in let h = s.short in omega (arith, length-map (stages_of s) plain, length-take s.len s.stages) };

    fn len(&self) -> usize {
        Recipe::len(self)
    }

    fn stage(&self, channels: usize, number: usize) -> Stage {
        self.stages()[number]
    }
}
