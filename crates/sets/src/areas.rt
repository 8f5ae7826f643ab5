ghost use Rattle.std.specs.Prelude.{◌≡◌, length};
ghost use Rattle.sets.specs.Areas.{at, span_at, holds, every, within};
ghost use Rattle.sets.specs.Sets.{rows_of};

use crate::bounds::{Bounds, NO_BOUNDS};
use crate::shape::Shape;
use crate::span_list::SpanList;

impl Bounds {
    // Whether each sample lies within the bounds: a loop that compares each with the span. It gathers one flag and has no way out, so
    // that the compiler compares many samples at a time.
    fn hold(&self, samples: &[i32]) -> bool
        ensures { result ≡ every (length samples.now) (λ t. holds self.now (at samples.now t)) }
    {
        let mut all = true;
        for x in samples {
            all &= (self.least <= *x) & (*x <= self.greatest);
        }
        all
    }
}

impl SpanList {
    // The bounds of a row; past the end, those that hold 0 alone.
    // Not as a span: the scan needs no order.
    fn bounds(&self, row: usize) -> Bounds
        ensures { result ≡ span_at (rows_of self.now) row }
    {
        self.rows[..self.len].get(row).copied().unwrap_or(NO_BOUNDS)
    }

    // Whether the area is as long as the shape says, and each sample lies in its channel's span.
    pub fn hold(&self, shape: &Shape, area: &[i32]) -> bool
        ensures { result ≡ within shape.now (rows_of self.now) area.now }
    {
        if shape.channels.checked_mul(shape.samples) != Some(area.len()) {
            return false;
        }
        // By number: `chunks_exact` asks for a length above 0, and this call takes every shape.
        for c in 0..shape.channels {
            let bounds = self.bounds(c);
            let from = c * shape.samples;
            if !bounds.hold(&area[from..from + shape.samples]) {
                return false;
            }
        }
        true
    }
}
