ghost use Rattle.std.specs.Prelude.{◌≡◌, ℕ, ◌<◌, ◌≤◌};
ghost use Rattle.stages.specs.Plain.{Plain, plain};

use crate::stage::Stage;

// A table of stages, from which a rack can be made. A stage may depend on how many channels a set has.
pub trait Table {
    // How many stages there are.
    ghost size: { Self → ℕ };

    // A stage, by the set's channels and its number.
    ghost entry: { Self → ℕ → ℕ → Plain };

    fn len(&self) -> usize
        ensures { result ≡ size self.now };

    fn stage(&self, channels: usize, number: usize) -> Stage
        requires { number < size self.now }
        ensures { plain result ≡ entry self.now channels number };

    ghost few: { (s : Self) → size s ≤ 1000 };
}
