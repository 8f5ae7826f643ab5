ghost use Rattle.std.specs.Prelude.{◌≡◌, ℕ, ◌+◌, ◌-◌, ◌*◌, ◌<◌, ◌≤◌, not, length, slice_index, slice_index_or};
ghost use Rattle.sets.specs.Areas.{size_of};
ghost use Rattle.stages.specs.Channels.{no_row};
ghost use Rattle.stages.specs.Plain.{plain_rows};
ghost use Rattle.transform.specs.DepRows.{CutTo, row_pass_of, row_passes_of};
ghost use Rattle.transform.specs.Turned.{Turned, Forth, Back};

use crate::dep_rows::DepRows;
use crate::row::Row;
use stages::quotient::Quotient;
use std::array;

// The functions on areas ask for the length of the sets: a type of both would have to hold the lent area.
impl DepRows {
    // Row i, from 1 up, without the taps that have no sample to read.
    #[tactic(auto, using(crate::proofs::DepRows::taps_cut))]
    fn row(&self, i: usize) -> Quotient
        requires { (1 ≤ i) × (i < self.now.dep.count) }
        ensures { CutTo i (slice_index_or (plain_rows self.now.dep) (i - 1) no_row) result }
    {
        let mut row = self.dep.rows()[i - 1];
        row.tap_count = row.tap_count.min(i);
        row
    }

    // The addresses of the first samples of eight channels.
    fn starts(&self) -> [usize; 8]
        ensures { (j : ℕ) → j < 8 → slice_index result j ≡ (self.now.dep.first + j) * self.now.shape.samples }
    {
        array::from_fn(|j| (self.dep.first + j) * self.shape.samples)
    }

    // Takes the quotient of row i, from 1 up, away from the samples of its channel, or adds it to them again.
    // TAKE is known when this is compiled, so that the inner loop has no branch.
    fn turn<const TAKE: bool>(&self, i: usize, area: &mut [i32])
        requires row { (1 ≤ i) × (i < self.now.dep.count) }
        requires long { length area.old ≡ size_of self.now.shape }
        ensures { Turned (not TAKE) (row_pass_of self.now i) area.old area.new }
    {
        let quotient = self.row(i);
        let from = self.starts();
        let row = Row {
            quotient,
            from,
            to: (self.dep.first + i) * self.shape.samples,
            by: 1,
            count: self.shape.samples,
        };
        row.turn::<TAKE>(area);
    }

    // Applies the rows, the last first: in this order each reads old samples alone. Undoing is another function: a flag for the order
    // would put both loops into one.
    #[tactic(auto, using(crate::proofs::DepRuns::forth_none, crate::proofs::DepRuns::forth_more))]
    pub(crate) fn apply(&self, area: &mut [i32])
        requires { length area.old ≡ size_of self.now.shape }
        ensures { Forth (row_passes_of self.now) area.old area.new }
    {
        for i in (1..self.dep.count).rev() {
            self.turn::<true>(i, area);
        }
    }

    // Undoes the rows, the first first.
    #[tactic(auto, using(crate::proofs::DepRuns::back_none, crate::proofs::DepRuns::back_more))]
    pub(crate) fn undo(&self, area: &mut [i32])
        requires { length area.old ≡ size_of self.now.shape }
        ensures { Back (row_passes_of self.now) area.old area.new }
    {
        for i in 1..self.dep.count {
            self.turn::<false>(i, area);
        }
    }
}
