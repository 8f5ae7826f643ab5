ghost use Rattle.std.specs.Prelude.{◌≡◌, ◌≤◌, true, ◌++◌, map, replicate, IfOk, OnOk};
ghost use Rattle.sets.specs.Sets.{rows_of, bounds_of, in_limits};
ghost use Rattle.recipe.specs.Requests.{plain_request};
ghost use Rattle.reporting.specs.Laws.{ReportLaws};
ghost use Rattle.reporting.specs.Lines.{asked_lines, channel_lines, report_lines};

use crate::line::Line;
use recipe::ask::request;
use recipe::request::Request;
use sets::span::Span;
use sets::span_list::SpanList;
use std::alloc::{AllocError, Global};

// The spans after a stage, a line for each channel.
fn add_channels(lines: &mut Vec<Line>, stage: usize, spans: &SpanList) -> Result<(), AllocError>
    ensures { OnOk result (lines.new.items ≡ lines.old.items ++ channel_lines stage 0 (rows_of spans.now)) }
{
    // A list hands out its rows one by one, as spans.
    for channel in 0..spans.len() {
        let Some(Span { least, greatest }) = spans.get(channel) else {
            unreachable()
        };
        lines.push(Line::Span {
            stage,
            channel,
            least,
            greatest,
        })?;
    }
    Ok(())
}

// The lines of all stages, up to the first that is refused.
fn add_stages(lines: &mut Vec<Line>, request: &Request) -> Result<(), AllocError>
    requires { in_limits request.now.shape ≡ true }
    ensures { OnOk result (lines.new.items ≡ lines.old.items ++ asked_lines (plain_request request.now)) }
{
    let Ok(mut spans) = SpanList::repeat(request.span, request.shape.channels) else {
        unreachable()
    };
    for (k, stage) in request.recipe.stages().iter().enumerate() {
        if let Err(refusal) = stage.spans(&request.shape, &mut spans) {
            lines.push(Line::Refused { stage: k, refusal })?;
            return Ok(());
        }
        add_channels(lines, k, &spans)?;
    }
    Ok(())
}

// The answer of `report`, which adds the law to it.
fn lines_of(heap: Global, text: &[u8]) -> Result<Vec<Line>, AllocError>
    ensures { IfOk result (λ v. v.items ≡ report_lines text.now) }
{
    let mut lines = Vec::new(heap);
    match request(text) {
        Ok(request) => add_stages(&mut lines, &request)?,
        Err(fault) => lines.push(Line::Fault(fault))?,
    }
    Ok(lines)
}

// The report of a text, line by line.
pub fn report(heap: Global, text: &[u8]) -> Result<Vec<Line>, AllocError>
    ensures lines { IfOk result (λ v. v.items ≡ report_lines text.now) }
    ensures law { ReportLaws }
{
    lines_of(heap, text)
}
