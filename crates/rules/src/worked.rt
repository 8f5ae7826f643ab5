ghost use Rattle.std.specs.Prelude.{◌≡◌, length};
ghost use Rattle.rules.specs.Worked.{table, Worked};

// How many worked samples there are, each of which is right. The rule on spans has one of its own, which carries the law of another
// table.
#[tactic(auto, using(crate::proofs::WorkedSamples::worked))]
pub fn worked_samples() -> usize
    ensures rows { result ≡ length table }
    ensures right { Worked }
{
    12
}
