ghost use Rattle.std.specs.Prelude.{◌≡◌, codes};
ghost use Rattle.recipe.specs.Promises.{Judged, Sets, fields_in, headed, wrong_as};
ghost use Rattle.recipe.specs.Replies.{answered};
ghost use Rattle.recipe.specs.RequestLaws.{RequestLaws};
ghost use Rattle.recipe.specs.Requests.{requested};
ghost use Rattle.recipe.specs.Rules.{set};

use crate::fault::{Cause, Fault};
use crate::line::Line;
use crate::lines::Lines;
use crate::request::Request;
use crate::table::Recipe;
use sets::shape::Shape;
use sets::span::Span;

// The shape and the span of a SET line's fields.
fn set_line(line: &Line) -> Result<(Shape, Span), Fault>
    ensures { Judged (wrong_as set line.now) (Sets (fields_in line.now)) result }
{
    let channels = line.natural(1, 1, 64)?;
    let samples = line.natural(2, 1, 1048576)?;
    let origin = line.natural(3, 0, 1048575)?;
    let least = line.number(4, -2147483648, 2147483647)?;
    let greatest = line.number(5, least, 2147483647)?;
    let shape = Shape {
        channels,
        samples,
        origin,
    };
    Ok((shape, Span { least, greatest }))
}

// The same of a line that must be a SET line.
#[tactic(auto, unfolding(crate::specs::Fields::is_word))]
fn set_due(line: &Line) -> Result<(Shape, Span), Fault>
    ensures { Judged (headed (codes "SET") set line.now.number (fields_in line.now)) (Sets (fields_in line.now)) result }
{
    line.check_head(b"SET", 5, 5)?;
    set_line(line)
}

// The answer of `request`, which adds the law of the format to it.
fn set_and_recipe(text: &[u8]) -> Result<Request, Fault>
    ensures { answered result ≡ requested text.now }
{
    if text.len() > 65536 {
        return Err(Fault {
            cause: Cause::TooLong,
            line: 0,
            field: 0,
        });
    }
    let mut lines = Lines {
        rest: text,
        number: 1,
    };
    let Some(line) = lines.next_line() else {
        return Err(lines.ends_inside());
    };
    let (shape, span) = set_due(&line)?;
    // Made only now, in place: a table is large beside a short text.
    let mut recipe = Recipe::new();
    recipe.fill(lines)?;
    Ok(Request {
        shape,
        span,
        recipe,
    })
}

// Reads the text of a report: a SET line, and a recipe.
#[tactic(auto, using(crate::proofs::RequestTheorem::request_laws))]
pub fn request(text: &[u8]) -> Result<Request, Fault>
    ensures answer { answered result ≡ requested text.now }
    ensures law { RequestLaws }
{
    set_and_recipe(text)
}
