ghost use Rattle.std.specs.Prelude.{◌^◌, ◌≤◌};

// Where the lines of a lifting run in an area: position j of line r is at start + j * by + r * apart, and has the index first + j.
#[derive(Clone, Copy)]
pub(crate) struct Lines {
    pub(crate) start: usize,
    pub(crate) by: usize,
    pub(crate) line_count: usize,
    pub(crate) apart: usize,
    pub(crate) first: usize,
    pub(crate) count: usize,
    ghost near: { start ≤ 2 ^ 27 },
    ghost spread: { 1 ≤ by },
    ghost close: { by ≤ 2 ^ 35 },
    ghost low: { first ≤ 2 ^ 21 },
    ghost few: { count ≤ 2 ^ 21 },
    ghost many: { line_count ≤ 2 ^ 20 },
    ghost wide: { apart ≤ 2 ^ 20 },
}
