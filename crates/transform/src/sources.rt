ghost use Rattle.std.specs.Prelude.{◌≡◌, ℕ, ◌^◌, ◌<◌, ◌≤◌, pos, neg_ℤ, ◌≤ℤ◌, slice_index};
ghost use Rattle.transform.specs.Lined.{spot};
ghost use Rattle.transform.specs.Turns.{inside_at, read_index_at};

use crate::turn::Turn;

// Casts lose nothing, as the check proves: a `try_from` would have a failure to answer that cannot come.
impl Turn {
    // The address on a line that is read for any index.
    fn source(&self, line: usize, index: i64) -> usize
        requires line { line ≤ self.now.on_lines.lines.line_count }
        requires low { neg_ℤ (pos (2 ^ 36)) ≤ℤ index }
        requires high { index ≤ℤ pos (2 ^ 36) }
        ensures { result ≡ spot self.now.on_lines.lines line (inside_at self.now index) }
    {
        let lines = &self.on_lines.lines;
        let extension = self.on_lines.lifting.lift.extension;
        match extension.inside(lines.count, index - lines.first as i64) {
            Some(position) => lines.start + position * lines.by + line * lines.apart,
            None => lines.start,
        }
    }

    // The addresses on a line that the taps of the step read for position j.
    pub(crate) fn sources(&self, line: usize, j: usize) -> [usize; 8]
        requires line { line ≤ self.now.on_lines.lines.line_count }
        requires position { j < self.now.on_lines.lines.count }
        ensures { (k : ℕ) → k < self.now.step.quotient.tap_count → slice_index result k ≡ spot self.now.on_lines.lines line (read_index_at self.now j k) }
    {
        let index = (self.on_lines.lines.first + j) as u32;
        let mut from = [0; 8];
        for (k, address) in from[..self.step.quotient.tap_count].iter_mut().enumerate() {
            *address = self.source(line, self.step.source_index(self.parity, index, k as u32));
        }
        from
    }
}
