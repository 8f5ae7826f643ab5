ghost use Rattle.std.specs.Prelude.{◌≡◌, ◌^◌, ◌≤◌};

use crate::stage::Extension;

// The indices of a line, from 0 to `count` - 1.
#[derive(Clone, Copy)]
pub(crate) struct Indices {
    pub(crate) extension: Extension,
    pub(crate) count: usize,
    ghost many: { 2 ≤ count },
    ghost few: { count ≤ 2 ^ 21 },
}

// In which slot the span of an index stands: along the samples that of its parity, along the channels its own.
#[derive(Clone, Copy)]
pub(crate) enum Line {
    Parities,
    Indices(Indices),
}

impl Indices {
    ghost use Rattle.stages.specs.Lines.{MirroredTo, mirror, nearest, extended};

    // An index mirrored about the first and about the last of the line until it is inside: two mirrorings move it by the period.
    fn mirrored(&self, index: i64) -> usize
        ensures is { MirroredTo self.now.count index result }
        ensures value { result ≡ mirror self.now.count index }
    {
        // Casts lose nothing, as the check proves: a `try_from` would have a failure to answer that cannot come.
        let far = index.unsigned_abs() as usize;
        if far < self.count {
            // most indices are inside, and need no division
            return far;
        }
        let period = 2 * (self.count - 1);
        let turn = far % period;
        turn.min(period - turn)
    }

    // The nearest inside index of the same parity.
    #[tactic(auto, using(crate::proofs::Mirrors::nearest_cases))]
    fn nearest(&self, index: i64) -> usize
        ensures { result ≡ nearest self.now.count index }
    {
        let far = index.unsigned_abs() as usize;
        let last = self.count - 1;
        if index < 0 {
            far % 2
        } else if far < self.count {
            far
        } else {
            last - (far - last) % 2
        }
    }

    // The inside index that is read for any index.
    pub(crate) fn inside(&self, index: i64) -> usize
        ensures { result ≡ extended self.now.extension self.now.count index }
    {
        match self.extension {
            Extension::Mirrored => self.mirrored(index),
            Extension::Nearest => self.nearest(index),
        }
    }
}

impl Line {
    ghost use Rattle.stages.specs.Slots.{slot_of};

    // The slot in which the span of an index stands, also of an index outside the line.
    pub(crate) fn slot(&self, index: i64) -> usize
        ensures { result ≡ slot_of self.now index }
    {
        match self {
            Line::Parities => index.unsigned_abs() as usize % 2,
            Line::Indices(indices) => indices.inside(index),
        }
    }
}
