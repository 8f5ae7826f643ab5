ghost use Rattle.std.specs.Prelude.{◌≡◌, ℕ, ◌+◌, ◌*◌, ◌^◌, ◌<◌, length, pos, neg_ℤ, ◌≤ℤ◌, FitsSigned, slice_index, slice_set};
ghost use Rattle.std.specs.Int.{int_wrap, w32};
ghost use Rattle.sets.specs.Areas.{at};
ghost use Rattle.transform.specs.Rowed.{place, quotient_at, turned_at, Rowed, Fitted};
ghost use Rattle.transform.specs.Turned.{turned_by};

use crate::low_bits::low_bits;
use crate::row::Row;
use stages::product::product;

// A sample with a quotient added, or to undo taken away, in 32 bits that wrap.
// UNDO is known when this is compiled, so that the inner loop has no branch.
fn turned<const UNDO: bool>(x: i32, q: i64) -> i32
    requires { (neg_ℤ (pos (2 ^ 50)) ≤ℤ q) × (q ≤ℤ pos (2 ^ 50)) }
    ensures { result ≡ int_wrap w32 (turned_by UNDO x q) }
{
    low_bits(if UNDO { x as i64 - q } else { x as i64 + q })
}

// Each function asks for the number of taps and the room: a type that holds N would be made anew in each of the nine arms below.
impl Row {
    // The quotient of the samples that are read, each address moved on by `shift`; N is the number of taps.
    fn quotient_at<const N: usize>(&self, shift: usize, area: &[i32]) -> i64
        requires known { self.now.quotient.tap_count ≡ N }
        requires sources { (k : ℕ) → k < self.now.quotient.tap_count → slice_index self.now.from k + shift < length area.now }
        ensures value { result ≡ quotient_at self.now.quotient area.now self.now.from shift }
        ensures low { neg_ℤ (pos (2 ^ 50)) ≤ℤ result }
        ensures high { result ≤ℤ pos (2 ^ 50) }
    {
        let mut sum = self.quotient.residue as i64;
        // by index, up to a constant: the compiler writes the loop out
        for k in 0..N {
            sum += product(self.quotient.taps[k], area[self.from[k] + shift]);
        }
        self.quotient.floor(sum)
    }

    // Changes sample i.
    fn turn_one<const UNDO: bool, const N: usize>(&self, i: usize, area: &mut [i32])
        requires known { self.now.quotient.tap_count ≡ N }
        requires fitted { Fitted self.now (length area.old) }
        requires below { i < self.now.count }
        ensures fits { FitsSigned w32 (at area.old (place self.now i)) }
        ensures set { area.new ≡ slice_set area.old (place self.now i) (turned_at UNDO self.now area.old i) }
    {
        let shift = i * self.by;
        let q = self.quotient_at::<N>(shift, area);
        area[self.to + shift] = turned::<UNDO>(area[self.to + shift], q);
    }

    // Changes each sample. The number of taps is known when the loop is compiled.
    fn turn_taps<const UNDO: bool, const N: usize>(&self, area: &mut [i32])
        requires known { self.now.quotient.tap_count ≡ N }
        requires fitted { Fitted self.now (length area.old) }
        ensures { Rowed UNDO self.now self.now.count area.old area.new }
    {
        // An own copy, which no write to the area can change: the compiler then keeps it in registers.
        let row = *self;
        // Two samples in a turn: with one, 5-3 along T takes a twentieth longer.
        for i in 0..row.count / 2 {
            row.turn_one::<UNDO, N>(2 * i, area);
            row.turn_one::<UNDO, N>(2 * i + 1, area);
        }
        if row.count % 2 == 1 {
            row.turn_one::<UNDO, N>(row.count - 1, area);
        }
    }

    // Changes each sample, or changes it back.
    pub(crate) fn turn<const UNDO: bool>(&self, area: &mut [i32])
        requires { Fitted self.now (length area.old) }
        ensures { Rowed UNDO self.now self.now.count area.old area.new }
    {
        // A loop of its own for each number of taps: one loop for any number is much slower.
        match self.quotient.tap_count {
            0 => self.turn_taps::<UNDO, 0>(area),
            1 => self.turn_taps::<UNDO, 1>(area),
            2 => self.turn_taps::<UNDO, 2>(area),
            3 => self.turn_taps::<UNDO, 3>(area),
            4 => self.turn_taps::<UNDO, 4>(area),
            5 => self.turn_taps::<UNDO, 5>(area),
            6 => self.turn_taps::<UNDO, 6>(area),
            7 => self.turn_taps::<UNDO, 7>(area),
            _ => self.turn_taps::<UNDO, 8>(area),
        }
    }
}
