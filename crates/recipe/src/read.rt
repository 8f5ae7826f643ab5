ghost use Rattle.std.specs.Prelude.{◌≡◌};
ghost use Rattle.recipe.specs.Grammar.{begun, reading};
ghost use Rattle.recipe.specs.Readings.{reading_from, so_far};
ghost use Rattle.recipe.specs.Replies.{Answers, Reads};
ghost use Rattle.recipe.specs.Tables.{table_of};
ghost use Rattle.recipe.specs.Written.{ReadingLaws};

use crate::fault::Fault;
use crate::lines::Lines;
use crate::reading::Reading;
use crate::table::Recipe;

impl Reading<'_> {
    // Takes the lines of a text.
    fn take_all(&mut self, mut lines: Lines<'_>) -> Result<(), Fault>
        ensures reads { Reads (reading_from (so_far self.old) lines.entry) (table_of self.new.recipe.now) result }
        ensures same { self.new.recipe.ghost_name ≡ self.old.recipe.ghost_name }
    {
        // No `Iterator`: a `for` would take the lines, which are looked at after the loop.
        while let Some(line) = lines.next_line() {
            self.take(&line)?;
        }
        if lines.rest.is_empty() && self.left == 0 {
            return Ok(());
        }
        Err(lines.ends_inside())
    }
}

impl Recipe {
    // Takes the lines of a text into the table, in place of what it holds.
    fn take_lines(&mut self, lines: Lines<'_>) -> Result<(), Fault>
        ensures { Reads (reading_from begun lines.entry) (table_of self.new) result }
    {
        self.len = 0; // what an earlier text left is let go
        let mut reading = Reading {
            recipe: self,
            left: 0,
        };
        reading.take_all(lines)
    }

    // The recipe of the lines of a text; a refused text leaves the table empty.
    pub(crate) fn fill(&mut self, lines: Lines<'_>) -> Result<(), Fault>
        ensures { Answers (reading_from begun lines.entry) result (table_of self.new) }
    {
        let answer = self.take_lines(lines);
        if answer.is_err() {
            self.len = 0; // what came before the fault is let go
        }
        answer
    }

    // Reads a recipe. A refused text leaves the table empty.
    #[tactic(auto, using(crate::proofs::Theorem::reading_laws))]
    pub fn read(&mut self, text: &[u8]) -> Result<(), Fault>
        ensures answer { Answers (reading text.now) result (table_of self.new) }
        ensures law { ReadingLaws }
    {
        self.fill(Lines {
            rest: text,
            number: 1,
        })
    }
}
