ghost use Rattle.std.specs.Prelude.{◌≡◌};
ghost use Rattle.std.specs.Option.{MatchOption};
ghost use Rattle.recipe.specs.Readings.{LinesEnd, NextLine};
ghost use Rattle.recipe.specs.declared.fault.Cause.TheVariants.{EndsInside};

use crate::fault::{Cause, Fault};
use crate::line::Line;
use crate::lines::Lines;

impl<'a> Lines<'a> {
    // The next line, without its line feed, if there is a line feed.
    pub(crate) fn next_line(&mut self) -> Option<Line<'a>>
        ensures cases { MatchOption result (LinesEnd self.old self.new) (λ l. NextLine self.old l self.new) }
    {
        let end = self.rest.iter().position(|b| *b == b'\n')?;
        let line = Line {
            bytes: &self.rest[..end],
            number: self.number,
        };
        self.rest = &self.rest[end + 1..];
        self.number += 1;
        Some(line)
    }

    // The fault of a text that ends here, inside a line or a stage.
    pub(crate) fn ends_inside(&self) -> Fault
        ensures { result ≡ record { cause = EndsInside; line = self.now.number; field = 0 } }
    {
        Fault {
            cause: Cause::EndsInside,
            line: self.number,
            field: 0,
        }
    }
}
