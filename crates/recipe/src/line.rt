// A line of a text, without its line feed, and its number, from 1.
#[derive(Clone, Copy)]
pub struct Line<'a> {
    pub bytes: &'a [u8],
    pub number: usize,
}
