ghost use Rattle.std.specs.Prelude.{◌≡◌, ◌≤◌, length};
ghost use Rattle.sets.specs.Ordered.{Ordered, NoneBelow, NoneAbove};

use crate::bounds::Bounds;

// A list of at most 64 spans, one for each channel. Past `len` stands nothing of meaning.
// An array and its length, and no vector: lists are copied freely, and nothing here may run out of memory.
// Ghost fields and no model: what they say of each row is read of any list above, and a model of a Copy type has to give
// back what stands past `len`.
#[derive(Clone, Copy)]
pub struct SpanList {
    pub(crate) rows: [Bounds; 64],
    pub(crate) len: usize,
    ghost full: { length rows ≡ 64 },
    ghost short: { len ≤ 64 },
    ghost ordered: { Ordered rows len },
    ghost low: { NoneBelow rows len },
    ghost high: { NoneAbove rows len },
}
