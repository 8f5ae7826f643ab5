ghost use Rattle.std.specs.Prelude.{◌≡◌, ◌<◌};
ghost use Rattle.recipe.specs.Promises.{Takes};
ghost use Rattle.recipe.specs.Readings.{so_far};

use crate::fault::Fault;
use crate::grow::grown;
use crate::line::Line;
use crate::reading::Reading;

// Each says that the table is the same caller's still.
impl Reading<'_> {
    // Takes a line by which a stage begins.
    #[tactic(auto, using(crate::proofs::Tables::room_last))]
    fn begin(&mut self, line: &Line) -> Result<(), Fault>
        requires { self.old.left ≡ 0 }
        ensures takes { Takes (so_far self.old) line.now (so_far self.new) result }
        ensures same { self.new.recipe.ghost_name ≡ self.old.recipe.ghost_name }
    {
        let begun = self.recipe.stage_line(line)?;
        self.recipe.push(begun.stage);
        self.left = begun.left;
        Ok(())
    }

    // Takes one of the lines of the stage at hand that are due.
    fn go_on(&mut self, line: &Line) -> Result<(), Fault>
        requires { 0 < self.old.left }
        ensures takes { Takes (so_far self.old) line.now (so_far self.new) result }
        ensures same { self.new.recipe.ghost_name ≡ self.old.recipe.ghost_name }
    {
        // Tried a `&mut` to the stage in the table: the proof didn't close, since the check does not cover such a function.
        let last = self.recipe.len - 1;
        let stage = grown(self.recipe.stages[last], line)?;
        self.left -= 1;
        self.recipe.stages[last] = stage;
        Ok(())
    }

    // Takes a line.
    pub(crate) fn take(&mut self, line: &Line) -> Result<(), Fault>
        ensures takes { Takes (so_far self.old) line.now (so_far self.new) result }
        ensures same { self.new.recipe.ghost_name ≡ self.old.recipe.ghost_name }
    {
        if self.left == 0 {
            self.begin(line)
        } else {
            self.go_on(line)
        }
    }
}
