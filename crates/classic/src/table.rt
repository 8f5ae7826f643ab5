ghost use Rattle.std.specs.Prelude.{◌≡◌, ◌≤◌, min, [], ◌∷◌};
ghost use Rattle.stages.specs.Plain.{plain, plain_step};
ghost use Rattle.stages.specs.Worked.{five_three, step};
ghost use Rattle.classic.specs.Classic.{classic_stage};
ghost use Rattle.std.proofs.Common.{rules};

use stages::quotient::Quotient;
use stages::stage::{Axis, Extension, Lift, Parity, Rct, Stage, Step};
use stages::table::Table;

// The classic table: RCT on channels 0 to 2, then 5-3 along the samples of all channels at levels 0 to 4.
#[derive(Clone, Copy)]
pub struct Classic;

// A step of two equal taps.
fn two_taps(offset: i32, exponent: u32, residue: i32, tap: i16) -> Step
    requires { exponent ≤ 16 }
    ensures { plain_step result ≡ step offset exponent residue (tap ∷ tap ∷ []) }
{
    Step {
        offset,
        quotient: Quotient {
            taps: [tap; 8],
            tap_count: 2,
            residue,
            exponent,
        },
    }
}

// The 5-3 kernel, mirrored, on the first channels along an axis. A lifting has at most 64 channels and level 15.
pub fn five_three(axis: Axis, channels: usize, level: u32) -> Stage
    ensures { plain result ≡ five_three axis (min channels 64) (min level 15) }
{
    let odd = two_taps(0, 1, 1, -1);
    let even = two_taps(-1, 2, 2, 1);
    Stage::Lift(Lift {
        axis,
        first: 0,
        count: channels.min(64),
        level: level.min(15),
        extension: Extension::Mirrored,
        parity: Parity::Odd,
        steps: [odd, even, even, even],
        step_count: 2,
    })
}

impl Table for Classic {
    ghost size = { λ s. 6 };

    ghost entry = { λ s c k. classic_stage c k };

    ghost few = { Prim.search rules };

    fn len(&self) -> usize {
        6
    }

    fn stage(&self, channels: usize, number: usize) -> Stage {
        if number == 0 {
            Stage::Rct(Rct { first: 0 })
        } else {
            // The cast loses nothing, since there are six stages.
            five_three(Axis::Time, channels, (number - 1) as u32)
        }
    }
}
