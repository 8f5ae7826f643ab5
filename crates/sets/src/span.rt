ghost use Rattle.std.specs.Prelude.{◌≤ℤ◌};

// A channel's span: no sample of it lies below `least` or above `greatest`.
#[derive(Clone, Copy)]
pub struct Span {
    pub least: i32,
    pub greatest: i32,
    ghost ordered: { least ≤ℤ greatest },
}
