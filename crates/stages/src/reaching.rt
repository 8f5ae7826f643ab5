ghost use Rattle.std.specs.Prelude.{◌≡◌, ◌+ℤ◌};
ghost use Rattle.sets.specs.Sets.{rows_of};
ghost use Rattle.stages.specs.Made.{wide_of};
ghost use Rattle.stages.specs.Plain.{taps_of};
ghost use Rattle.stages.specs.Quotients.{least_sum, greatest_sum, reach_of, Extremes};

use crate::product::weighed;
use crate::quotient::Quotient;
use crate::ranges::row_at;
use crate::reach::Reach;
use sets::span_list::SpanList;

impl Quotient {
    // The least and the greatest sum of taps times samples, plus the residue.
    fn summed(&self, sources: &SpanList) -> Reach
        ensures least { result.least ≡ least_sum (taps_of self.now) (rows_of sources.now) +ℤ self.now.residue }
        ensures greatest { result.greatest ≡ greatest_sum (taps_of self.now) (rows_of sources.now) +ℤ self.now.residue }
    {
        let mut least = i64::from(self.residue);
        let mut greatest = i64::from(self.residue);
        for (k, tap) in self.taps().iter().enumerate() {
            let part = weighed(*tap, &row_at(sources, k));
            least += part.least;
            greatest += part.greatest;
        }
        Reach { least, greatest }
    }

    // The least and the greatest quotient, each sample being anywhere in its span.
    pub fn reach(&self, sources: &SpanList) -> Reach
        ensures value { wide_of result ≡ reach_of (taps_of self.now) self.now.residue self.now.exponent (rows_of sources.now) }
        ensures extremes { Extremes (taps_of self.now) self.now.residue self.now.exponent (rows_of sources.now) (wide_of result) }
    {
        self.summed(sources).floored(self.exponent)
    }
}
