ghost use Rattle.std.specs.Prelude.{◌≡◌, pos, ◌+ℤ◌, ◌*ℤ◌};
ghost use Rattle.stages.specs.Floors.{floor_over};

use crate::floor::shifted;

// The floor of a quarter.
pub fn quarter(sum: i64) -> i64
    ensures { result ≡ floor_over sum 2 }
{
    shifted(sum, 2)
}

// The first new channel of the colour transform, from the three old ones.
pub fn luma(a: i32, b: i32, c: i32) -> i64
    ensures { result ≡ floor_over (a +ℤ (pos 2 *ℤ b +ℤ c)) 2 }
{
    quarter(i64::from(a) + (2 * i64::from(b) + i64::from(c)))
}
