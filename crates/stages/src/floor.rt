ghost use Rattle.std.specs.Prelude.{◌≡◌, ◌≤◌};
ghost use Rattle.stages.specs.Floors.{floor_over, IsFloor};

use crate::quotient::Quotient;

// The floor of z / 2^e, since a machine shifts a signed number toward minus infinity.
#[tactic(auto, using(crate::proofs::Floors::is_floor), unfolding(crate::specs::Floors::floor_over))]
pub(crate) fn shifted(z: i64, e: u32) -> i64
    requires { e ≤ 16 }
    ensures value { result ≡ floor_over z e }
    ensures law { IsFloor z e result }
{
    z >> e
}

impl Quotient {
    // The floor of a sum over 2 to the exponent.
    pub fn floor(&self, sum: i64) -> i64
        ensures value { result ≡ floor_over sum self.now.exponent }
        ensures law { IsFloor sum self.now.exponent result }
    {
        shifted(sum, self.exponent)
    }
}
