ghost use Rattle.std.specs.Prelude.{◌≡◌, ℕ, ◌<◌, Bool, List, length, ℤ, Option, option_map};
ghost use Rattle.sets.specs.declared.bounds.Bounds.{Bounds};
ghost use Rattle.sets.specs.declared.shape.Shape.{Shape};
ghost use Rattle.sets.specs.Areas.{Within, size_of};
ghost use Rattle.sets.specs.Sets.{rows_of};
ghost use Rattle.rack.specs.Calls.{Found};
ghost use Rattle.rack.specs.Laws.{Contained, Apart, Local};
ghost use Rattle.rack.specs.Meanings.{Suits};
ghost use Rattle.rack.specs.Members.{meant_at, Admitted};

use sets::shape::Shape;
use sets::span_list::SpanList;

// What a maker of a rack gives: its meaning, the laws that hold of it, and the work of each stage.
// The methods are asked only where nothing is refused, so they may ask for that in turn.
// Shape, number, spans and area are passed apart, as the calls of `Rack` pass them.
pub trait Stages {
    ghost stages: { Self → ℕ };

    ghost fits: { Self → ℕ → ℕ → Bool };

    ghost listed: { Self → Shape → ℕ → ℕ → Bool };

    ghost widened: { Self → Shape → ℕ → List Bounds → Option (List Bounds) };

    ghost transformed: { Self → Shape → ℕ → List ℤ → List ℤ };

    // How many stages there are.
    fn count(&self) -> usize
        ensures { result ≡ stages self.now };

    // Whether a stage fits so many channels.
    fn fit(&self, channels: usize, number: usize) -> bool
        requires { number < stages self.now }
        ensures { result ≡ fits self.now channels number };

    // Whether a stage lists a channel.
    fn lists(&self, shape: &Shape, number: usize, channel: usize) -> bool
        requires suits { Suits (meant_at stages fits listed widened transformed self.now) shape.now number }
        requires channel { channel < shape.now.channels }
        ensures { result ≡ listed self.now shape.now number channel };

    // The spans that a stage makes of these; none where a bound is beyond signed 32 bits.
    fn widen(&self, shape: &Shape, number: usize, spans: &SpanList) -> Option<SpanList>
        requires suits { Suits (meant_at stages fits listed widened transformed self.now) shape.now number }
        requires many { length (rows_of spans.now) ≡ shape.now.channels }
        ensures { option_map rows_of result ≡ widened self.now shape.now number (rows_of spans.now) };

    // Turns a set within the spans into what the stage makes of it.
    fn forward(&self, shape: &Shape, number: usize, spans: &SpanList, area: &mut [i32])
        requires admitted { Admitted (meant_at stages fits listed widened transformed self.now) shape.now number (rows_of spans.now) }
        requires inside { Within shape.now (rows_of spans.now) area.old }
        ensures { area.new ≡ transformed self.now shape.now number area.old };

    // Turns an area back into the set within the spans that the stage makes it of. False where there is none: then
    // the area holds anything. A flag is the whole answer, since the area is the caller's.
    fn backward(&self, shape: &Shape, number: usize, spans: &SpanList, area: &mut [i32]) -> bool
        requires admitted { Admitted (meant_at stages fits listed widened transformed self.now) shape.now number (rows_of spans.now) }
        requires long { length area.old ≡ size_of shape.now }
        ensures { Found (meant_at stages fits listed widened transformed self.now) shape.now number (rows_of spans.now) area.old result area.new };

    ghost contained: { (s : Self) → Contained (meant_at stages fits listed widened transformed s) };

    ghost apart: { (s : Self) → Apart (meant_at stages fits listed widened transformed s) };

    ghost local: { (s : Self) → Local (meant_at stages fits listed widened transformed s) };
}
