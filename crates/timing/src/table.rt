ghost use Rattle.std.specs.Prelude.{◌≡◌, ◌≤◌};
ghost use Rattle.stages.specs.Plain.{plain, plain_row};
ghost use Rattle.timing.specs.Timed.{small_row, small_rows, timed_stage};
ghost use Rattle.std.proofs.Common.{rules};

use classic::table::five_three;
use stages::quotient::Quotient;
use stages::stage::{Axis, Dep, Rct, Stage};
use stages::table::Table;
use std::array;

// The stages that are timed, by the numbers under which C asks for them.
#[derive(Clone, Copy)]
pub struct Timed;

// A row of so many small taps.
fn small_row(count: usize) -> Quotient
    requires { count ≤ 8 }
    ensures { plain_row result ≡ small_row count }
{
    Quotient {
        taps: [1, -1, 2, -2, 3, -3, 1, 0],
        tap_count: count,
        residue: 2,
        exponent: 2,
    }
}

// Seven rows, which read all channels before their own.
fn small_rows() -> Stage
    ensures { plain result ≡ small_rows }
{
    Stage::Dep(Dep {
        first: 0,
        count: 8,
        rows: array::from_fn(|k| small_row(k + 1)),
    })
}

impl Table for Timed {
    ghost size = { λ s. 4 };

    ghost entry = { λ s c k. timed_stage c k };

    ghost few = { Prim.search rules };

    fn len(&self) -> usize {
        4
    }

    fn stage(&self, channels: usize, number: usize) -> Stage {
        match number {
            0 => five_three(Axis::Time, channels, 0),
            1 => five_three(Axis::Channel, channels, 0),
            2 => Stage::Rct(Rct { first: 0 }),
            _ => small_rows(),
        }
    }
}
