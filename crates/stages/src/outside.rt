ghost use Rattle.std.specs.Prelude.{◌≡◌, ◌&&◌, if◌then◌else◌, Some, None};
ghost use Rattle.stages.specs.Lines.{is_line, is_index, extended};

use crate::line::Indices;
use crate::stage::Extension;

// More indices than the lines of any set have.
const MOST: usize = 1 << 21;

// Further off than any index that a step reads.
const FAR: i64 = 1 << 40;

impl Extension {
    // The index inside a line of `count` indices from 0 on that is read for any index.
    // None where the line has fewer than two indices, or more than any set has, or the index is further off than any that a step reads.
    pub fn inside(self, count: usize, index: i64) -> Option<usize>
        ensures { result ≡ (if is_line count && is_index index then Some (extended self count index) else None) }
    {
        if (2..=MOST).contains(&count) && (-FAR..=FAR).contains(&index) {
            let line = Indices {
                extension: self,
                count,
            };
            Some(line.inside(index))
        } else {
            None
        }
    }
}
