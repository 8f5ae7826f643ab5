ghost use Rattle.std.specs.Prelude.{◌≡◌};
ghost use Rattle.std.specs.Int.{int_wrap, w32};

// The low 32 bits of a number, as a signed number.
// Casts lose nothing, as the check proves: a `try_from` would have a failure to answer that cannot come.
#[tactic(auto, using(crate::proofs::LowBits::masked_wrapped))]
pub(crate) fn low_bits(v: i64) -> i32
    ensures { result ≡ int_wrap w32 v }
{
    ((v.cast_unsigned() & 0xffff_ffff) as u32).cast_signed()
}
