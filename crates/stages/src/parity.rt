ghost use Rattle.std.specs.Prelude.{◌≡◌, ◌≤◌};
ghost use Rattle.stages.specs.Lifting.{parity_of, other};

use crate::stage::Parity;

impl Parity {
    // A method, and no `From`: the tests on indices read it by its name.
    pub fn number(self) -> usize
        ensures value { result ≡ parity_of self }
        ensures small { result ≤ 1 }
    {
        self as usize
    }

    pub fn other(self) -> Parity
        ensures { result ≡ other self }
    {
        match self {
            Parity::Even => Parity::Odd,
            Parity::Odd => Parity::Even,
        }
    }
}
