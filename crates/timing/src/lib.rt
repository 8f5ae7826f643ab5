// Rack calls for C to time: on numbers and one area, each under a name that C calls.
#![tactic(auto)]

ghost use Rattle.std.specs.Prelude.{◌≡◌, min};
ghost use Rattle.sets.specs.Sets.{rows_of};
ghost use Rattle.rack.specs.Calls.{Applies, Undoes};
ghost use Rattle.timing.specs.Timed.{timed_rack, timed_shape, timed_spans, answer_number, Numbered};

use crate::table::Timed;
use rack::rack::Rack;
use sets::refusal::Refusal;
use sets::shape::Shape;
use sets::span::Span;
use sets::span_list::SpanList;
use transform::bank::Bank;

pub mod table;

// 24 bits for each channel.
fn timed_spans(channels: usize) -> SpanList
    ensures { rows_of result ≡ timed_spans channels }
{
    let span = Span {
        least: -8388608,
        greatest: 8388607,
    };
    let Ok(spans) = SpanList::repeat(span, channels.min(64)) else {
        unreachable()
    };
    spans
}

fn timed_shape(channels: usize, samples: usize) -> Shape
    ensures { result ≡ timed_shape channels samples }
{
    Shape {
        channels,
        samples,
        origin: 0,
    }
}

// 0, or the number of the refusal: C is answered by a number.
fn number_of(answer: Result<(), Refusal>) -> u8
    ensures { result ≡ answer_number answer }
{
    match answer {
        Ok(()) => 0,
        Err(refusal) => refusal.number(),
    }
}

// Applies a timed stage to a set of 24-bit samples.
#[unsafe(no_mangle)]
pub extern "C" fn timing_apply(task: usize, channels: usize, samples: usize, area: &mut [i32]) -> u8
    ensures { Numbered (Applies timed_rack (timed_shape channels samples) task (timed_spans channels) area.old) result area.new }
{
    let shape = timed_shape(channels, samples);
    let spans = timed_spans(channels);
    number_of(Bank { table: Timed }.apply(&shape, task, &spans, area))
}

// Undoes a timed stage.
#[unsafe(no_mangle)]
pub extern "C" fn timing_undo(task: usize, channels: usize, samples: usize, area: &mut [i32]) -> u8
    ensures { Numbered (Undoes timed_rack (timed_shape channels samples) task (timed_spans channels) area.old) result area.new }
{
    let shape = timed_shape(channels, samples);
    let spans = timed_spans(channels);
    number_of(Bank { table: Timed }.undo(&shape, task, &spans, area))
}
