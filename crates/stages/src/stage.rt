ghost use Rattle.std.specs.Prelude.{◌≡◌, ◌+◌, ◌≤◌, length};

use crate::quotient::Quotient;

// The axis along which a lifting runs: the samples of a channel, or the channels at one sample.
#[derive(Clone, Copy)]
pub enum Axis {
    Time,
    Channel,
}

// What stands for an index outside a line: its mirror image (WS), or the nearest inside index of its parity (CON).
#[derive(Clone, Copy)]
pub enum Extension {
    Mirrored,
    Nearest,
}

// The indices that a step changes.
#[derive(Clone, Copy)]
pub enum Parity {
    Even = 0,
    Odd = 1,
}

// One step of a lifting: it adds its quotient to each index of one parity, reading the other from `offset` on.
#[derive(Clone, Copy)]
pub struct Step {
    pub offset: i32,
    pub quotient: Quotient,
}

#[derive(Clone, Copy)]
pub struct Lift {
    pub axis: Axis,
    pub first: usize,
    pub count: usize,
    pub level: u32,
    pub extension: Extension,
    pub parity: Parity,
    // no heap, and Copy: the steps in use stand first
    pub steps: [Step; 4],
    pub step_count: usize,
    ghost inside: { first + count ≤ 64 },
    ghost shallow: { level ≤ 15 },
    ghost full: { length steps ≡ 4 },
    ghost few: { step_count ≤ 4 },
}

// Dependency rows: row i, from 1 up, is at `rows[i - 1]`, and reads the channels before its own.
#[derive(Clone, Copy)]
pub struct Dep {
    pub first: usize,
    pub count: usize,
    // no heap, and Copy: the rows in use stand first
    pub rows: [Quotient; 7],
    ghost inside: { first + count ≤ 64 },
    ghost some: { 1 ≤ count },
    ghost few: { count ≤ 8 },
    ghost full: { length rows ≡ 7 },
}

#[derive(Clone, Copy)]
pub struct Rct {
    pub first: usize,
    ghost inside: { first ≤ 61 },
}

#[derive(Clone, Copy)]
pub enum Stage {
    Lift(Lift),
    Dep(Dep),
    Rct(Rct),
}
