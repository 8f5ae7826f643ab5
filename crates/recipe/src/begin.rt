ghost use Rattle.recipe.specs.Promises.{Opens, Passes, wrong_start};
ghost use Rattle.recipe.specs.Tables.{table_of};

use crate::begun::Begun;
use crate::fault::{Cause, Fault};
use crate::forms::{dep_line, lift_line, rct_line};
use crate::line::Line;
use crate::table::Recipe;

impl Recipe {
    // Refuses a stage that has no room, and then a line that has not so many fields behind its word.
    fn check_start(&self, line: &Line, behind: usize) -> Result<(), Fault>
        ensures { Passes (wrong_start (table_of self.now) behind line.now) result }
    {
        if self.len == 16 {
            return Err(line.fault(Cause::StageCount, 0));
        }
        line.check_count(behind, behind)?;
        Ok(())
    }

    // The stage that a line begins.
    #[tactic(auto, unfolding(crate::specs::Fields::is_word))]
    pub(crate) fn stage_line(&self, line: &Line) -> Result<Begun, Fault>
        ensures { Opens (table_of self.now) line.now result }
    {
        // Tried: a match on the words goes byte by byte, and in its last arm a proof had no name for the word.
        if line.begins(b"LIFT") {
            self.check_start(line, 7)?;
            return lift_line(line);
        }
        if line.begins(b"DEP") {
            self.check_start(line, 2)?;
            return dep_line(line);
        }
        if line.begins(b"RCT") {
            self.check_start(line, 1)?;
            return rct_line(line);
        }
        Err(line.fault(Cause::WordDue, 0))
    }
}
