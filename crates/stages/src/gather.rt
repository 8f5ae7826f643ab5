ghost use Rattle.std.specs.Prelude.{ℕ, ◌<◌, ◌≤◌};
ghost use Rattle.stages.specs.Made.{Gathered, Listed};

use sets::span::Span;
use sets::span_list::SpanList;

// A list of so many spans, each made by its number; none where one cannot be made.
#[tactic(auto, using(crate::proofs::Gathers::listed_none, crate::proofs::Gathers::listed_all))]
pub(crate) fn gathered<F: Fn(usize) -> Option<Span>>(count: usize, row: F) -> Option<SpanList>
    requires room { count ≤ 64 }
    requires callable { (i : ℕ) → i < count → F.pre row i }
    ensures { Gathered (F.post row) count result }
{
    let mut rows = SpanList::new();
    for i in 0..count {
        // there is room
        let _ = rows.push(row(i)?);
    }
    Some(rows)
}

// The same where each can be made.
pub(crate) fn listed<F: Fn(usize) -> Span>(count: usize, row: F) -> SpanList
    requires room { count ≤ 64 }
    requires callable { (i : ℕ) → i < count → F.pre row i }
    ensures { Listed (F.post row) count result }
{
    let always = |i: usize| -> Option<Span>
        requires { F.pre row i }
    { Some(row(i)) };
    let Some(rows) = gathered(count, always) else {
        unreachable()
    };
    rows
}
