// A field of a line, as the reader hands it out: always a part of the caller's text.
#[derive(Clone, Copy)]
pub enum Field<'a> {
    Empty,
    Word(&'a [u8]),
    Number(&'a [u8]),
    Other(&'a [u8]),
}
