ghost use Rattle.std.specs.Prelude.{◌+◌, ◌^◌, ◌<◌, length};

// What is still to be read of a text, and the number of its next line, from 1.
#[derive(Clone, Copy)]
pub(crate) struct Lines<'a> {
    pub(crate) rest: &'a [u8],
    pub(crate) number: usize,
    ghost few: { number + length rest.now < 2 ^ 64 },
}
