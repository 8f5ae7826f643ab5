ghost use Rattle.std.specs.Prelude.{◌≡◌, true, ◌≤ℤ◌};
ghost use Rattle.sets.specs.Sets.{bounds_of, rows_of};
ghost use Rattle.stages.specs.Ranges.{raised, lowered, hull, fits, at};
ghost use Rattle.stages.specs.Made.{Narrowed, between, wide_of};

use crate::reach::Reach;
use sets::span::Span;
use sets::span_list::SpanList;

// The span of these bounds, unless they are beyond signed 32 bits. Two numbers, and no `TryFrom<Reach>`: they may be wider than what
// a `Reach` holds.
pub(crate) fn narrowed(least: i64, greatest: i64) -> Option<Span>
    requires { least ≤ℤ greatest }
    ensures { Narrowed result (between least greatest) }
{
    Some(Span {
        least: i32::try_from(least).ok()?,
        greatest: i32::try_from(greatest).ok()?,
    })
}

pub(crate) fn raise(span: &Span, by: &Reach) -> Option<Span>
    ensures { Narrowed result (raised (bounds_of span.now) (wide_of by.now)) }
{
    narrowed(
        i64::from(span.least) + by.least,
        i64::from(span.greatest) + by.greatest,
    )
}

pub(crate) fn lower(span: &Span, by: &Reach) -> Option<Span>
    ensures { Narrowed result (lowered (bounds_of span.now) (wide_of by.now)) }
{
    raise(span, &by.negated())
}

// The smallest span that holds both.
pub(crate) fn join(a: &Span, b: &Span) -> Span
    ensures { bounds_of result ≡ hull (bounds_of a.now) (bounds_of b.now) }
{
    Span {
        least: a.least.min(b.least),
        greatest: a.greatest.max(b.greatest),
    }
}

// The span that stands at a place of the list; past the end stands the span of 0 alone.
pub(crate) fn row_at(list: &SpanList, row: usize) -> Span
    ensures value { bounds_of result ≡ at (rows_of list.now) row }
    ensures fitting { fits (at (rows_of list.now) row) ≡ true }
{
    list.get(row).unwrap_or(Span {
        least: 0,
        greatest: 0,
    })
}
