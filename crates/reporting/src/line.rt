ghost use Rattle.std.specs.Prelude.{Some};
ghost use Rattle.reporting.specs.Lines.{text_of};

use recipe::fault::Fault;
use sets::refusal::Refusal;
use std::fmt;

// A line of a report: the span of a channel after a stage, or what ends the report: a fault of the text, or a stage that is refused.
#[derive(Clone, Copy)]
pub enum Line {
    // Two numbers and no `Span`: the type is public, and a span would ask for their order.
    Span {
        stage: usize,
        channel: usize,
        least: i32,
        greatest: i32,
    },
    Fault(Fault),
    Refused {
        stage: usize,
        refusal: Refusal,
    },
    // A last line by its numbers alone, for callers who have it no other way; `report` answers the two above.
    Numbered {
        number: u8,
        place: usize,
        field: usize,
    },
}

impl fmt::Display for Line {
    ghost output = { λ line. Some (text_of line) };

    fn fmt<W: fmt::Write>(&self, f: &mut fmt::Formatter<W>) -> fmt::Result {
        match *self {
            Line::Span {
                stage,
                channel,
                least,
                greatest,
            } => write!(f, "{stage},{channel},{least},{greatest}"),
            Line::Fault(Fault { cause, line, field }) => {
                write!(f, "refused,{cause},{line},{field}")
            }
            Line::Refused { stage, refusal } => write!(f, "refused,{refusal},{stage},0"),
            Line::Numbered {
                number,
                place,
                field,
            } => write!(f, "refused,{number},{place},{field}"),
        }
    }
}
