ghost use Rattle.std.specs.Prelude.{◌≡◌, ◌^◌, pos, neg_ℤ, ◌≤ℤ◌};
ghost use Rattle.stages.specs.Lifting.{parity_of, source_index};

use crate::stage::{Parity, Step};

impl Step {
    // The index that a tap of the step reads for an index of its parity.
    pub fn source_index(&self, parity: Parity, index: u32, tap: u32) -> i64
        ensures value { result ≡ source_index (parity_of parity) index self.now.offset tap }
        ensures low { neg_ℤ (pos (2 ^ 36)) ≤ℤ result }
        ensures high { result ≤ℤ pos (2 ^ 36) }
    {
        let other = 1 - parity.number();
        // Casts lose nothing, as the check proves: a `try_from` would have a failure to answer that cannot come.
        2 * (i64::from(index / 2) + (i64::from(self.offset) + i64::from(tap))) + other as i64
    }
}
