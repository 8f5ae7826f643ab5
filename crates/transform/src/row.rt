ghost use Rattle.std.specs.Prelude.{◌≡◌, ◌≤◌, length};
ghost use Rattle.transform.specs.Apart.{Apart};

use stages::quotient::Quotient;

// A run of evenly spaced samples that are each changed by a quotient of others: sample i, for i below `count`, stands at `to + i * by`,
// and its quotient reads the addresses `from`, each moved on by `i * by`.
#[derive(Clone, Copy)]
pub(crate) struct Row {
    pub(crate) quotient: Quotient,
    // An array, since there is no heap and a row is copied: the addresses of the taps that count stand first.
    pub(crate) from: [usize; 8],
    pub(crate) to: usize,
    pub(crate) by: usize,
    pub(crate) count: usize,
    ghost full: { length from ≡ 8 },
    ghost spaced: { 1 ≤ by },
    ghost apart: { Apart quotient from to by count },
}
