ghost use Rattle.std.specs.Prelude.{◌≡◌, ◌+◌, length};
ghost use Rattle.recipe.specs.Fields.{fields_of, Shows};
ghost use Rattle.recipe.specs.Rules.{field as at};

use crate::field::Field;
use crate::kinds::kind;
use crate::line::Line;

impl<'a> Line<'a> {
    // The commas of a line: it has one field more.
    pub fn commas(&self) -> usize
        ensures { result + 1 ≡ length (fields_of self.now.bytes.now) }
    {
        // A fold, and no `filter` and `count`: these branch at each byte, which is slow where commas come at random.
        // A slice is too short for the sum to wrap.
        self.bytes
            .iter()
            .fold(0, |n: usize, b| n.wrapping_add(usize::from(*b == b',')))
    }

    // Field `k`, from 0, and an empty field past the last.
    pub fn field(&self, k: usize) -> Field<'a>
        ensures { Shows result (at (fields_of self.now.bytes.now) k) }
    {
        self.bytes
            .split(|b| *b == b',')
            .nth(k)
            .map_or(Field::Empty, kind)
    }
}
