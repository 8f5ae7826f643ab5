ghost use Rattle.std.specs.Prelude.{◌≡◌, ◌≤◌, length};

// The floor of (the sum of the taps, each times a sample, plus the residue) over 2 to the exponent.
#[derive(Clone, Copy)]
pub struct Quotient {
    // no heap, and Copy: the taps in use stand first
    pub taps: [i16; 8],
    pub tap_count: usize,
    pub residue: i32,
    pub exponent: u32,
    ghost full: { length taps ≡ 8 },
    ghost few: { tap_count ≤ 8 },
    ghost small: { exponent ≤ 16 },
}
