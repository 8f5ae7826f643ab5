ghost use Rattle.std.specs.Prelude.{◌≡◌, length};
ghost use Rattle.stages.specs.Worked.{table, Worked};

// How many worked samples of the rule on spans there are, each of which holds. The rules on samples have one of their own, which
// carries the law of another table.
pub fn worked_samples() -> usize
    ensures rows { result ≡ length table }
    ensures hold { Worked }
{
    8
}
