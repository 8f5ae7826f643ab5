// Calls racks as a script on standard input says, and prints what they answer.
//
// A line of the script is a word and numbers, parted by commas: SHAPE, SPANS and AREA give what the calls are passed,
// RECIPE (its lines follow, a tab before each) and CLASSIC say which rack is called, and COUNT, LIST, WIDEN, APPLY and
// UNDO call it.
#![tactic(auto)]

use anyhow::anyhow;
use classic::table::Classic;
use rack::rack::Rack;
use rack::stages::Stages;
use recipe::table::Recipe;
use sets::refusal::Refusal;
use sets::shape::Shape;
use sets::span::Span;
use sets::span_list::SpanList;
use stages::table::Table;
use std::alloc::Global;
use std::io;
use std::io::{BufWriter, Read, Write};
use transform::bank::Bank;

// Which rack is called. The recipe stands in `Lent`, where it is read in place.
#[derive(Clone, Copy)]
enum Called {
    Recipe,
    Classic,
}

// What the next call is passed.
#[derive(Drop)]
struct Lent {
    shape: Shape,
    spans: SpanList,
    area: Vec<i32>,
    recipe: Recipe,
    called: Called,
}

// Near to what `walkthrough` does, which refuses what is read as 0 here: programs share no crate.
fn numbers(heap: Global, head: &str) -> anyhow::Result<Vec<i32>> {
    let mut all = Vec::new(heap);
    for field in head.split(',').skip(1) {
        all.push(field.parse::<i32>()?)?;
    }
    Ok(all)
}

// The number at a place, as a size; 0 where there is none.
fn size_at(values: &[i32], k: usize) -> usize {
    values
        .get(k)
        .and_then(|x| usize::try_from(*x).ok())
        .unwrap_or(0)
}

fn shape(values: &[i32]) -> Shape {
    Shape {
        channels: size_at(values, 0),
        samples: size_at(values, 1),
        origin: size_at(values, 2),
    }
}

fn span_list(values: &[i32]) -> Result<SpanList, Refusal> {
    let mut spans = SpanList::new();
    for pair in values.chunks(2) {
        if let [least, greatest] = pair {
            spans.push(Span::new(*least, *greatest)?)?;
        }
    }
    Ok(spans)
}

// Functions, here and below: `Result` and `SpanList` are other crates' types, each printed in one way here only.
fn write_answer<W: Write>(out: &mut W, answer: Result<(), Refusal>) -> io::Result<()> {
    match answer {
        Ok(()) => write!(out, "ok"),
        Err(refusal) => write!(out, "refused,{refusal}"),
    }
}

fn write_spans<W: Write>(out: &mut W, spans: &SpanList) -> io::Result<()> {
    // A list hands out its rows one by one.
    for Span { least, greatest } in (0..spans.len()).filter_map(|channel| spans.get(channel)) {
        write!(out, ",{least},{greatest}")?;
    }
    writeln!(out)
}

fn write_area<W: Write>(out: &mut W, area: &[i32]) -> io::Result<()> {
    for x in area {
        write!(out, ",{x}")?;
    }
    writeln!(out)
}

// The listed channels, and behind them what stood in the list before, which must stay.
fn write_list<W: Write>(out: &mut W, list: &[u8; 64], count: usize) -> io::Result<()> {
    write!(out, "listed")?;
    for channel in list.iter().take(count) {
        write!(out, ",{channel}")?;
    }
    for (place, channel) in list.iter().enumerate().skip(count) {
        if *channel != 255 {
            write!(out, ",changed at {place}")?;
        }
    }
    writeln!(out)
}

fn call<R: Rack, W: Write>(
    rack: &R,
    out: &mut W,
    word: &str,
    number: usize,
    lent: &mut Lent,
) -> io::Result<()> {
    // Words are matched where they are obeyed: an enum of calls would name each twice more.
    match word {
        "COUNT" => {
            let count = rack.count();
            writeln!(out, "count,{count}")
        }
        "LIST" => {
            let mut list = [255u8; 64];
            match rack.list(&lent.shape, number, &mut list) {
                Ok(count) => write_list(out, &list, count),
                Err(refusal) => writeln!(out, "refused,{refusal}"),
            }
        }
        "WIDEN" => {
            let answer = rack.spans(&lent.shape, number, &mut lent.spans);
            write_answer(out, answer)?;
            write_spans(out, &lent.spans)
        }
        "APPLY" => {
            let answer = rack.apply(&lent.shape, number, &lent.spans, lent.area.as_mut_slice());
            write_answer(out, answer)?;
            write_area(out, lent.area.as_slice())
        }
        "UNDO" => {
            let answer = rack.undo(&lent.shape, number, &lent.spans, lent.area.as_mut_slice());
            write_answer(out, answer)?;
            write_area(out, lent.area.as_slice())
        }
        _ => writeln!(out, "no such call"),
    }
}

fn recipe_text(heap: Global, line: &str) -> anyhow::Result<String> {
    let mut text = String::new(heap);
    for part in line.split('\t').skip(1) {
        text.push_str(part)?;
        text.push('\n')?;
    }
    Ok(text)
}

fn obey<W: Write>(heap: Global, out: &mut W, line: &str, lent: &mut Lent) -> anyhow::Result<()> {
    let head = line.split('\t').next().unwrap_or("");
    let word = head.split(',').next().unwrap_or("");
    let values = numbers(heap, head)?;
    match word {
        "SHAPE" => lent.shape = shape(values.as_slice()),
        "SPANS" => {
            lent.spans = span_list(values.as_slice()).map_err(|_| anyhow!(
                "bad spans in the script"
            ))?;
        }
        "AREA" => lent.area = values,
        "RECIPE" => {
            let text = recipe_text(heap, line)?;
            lent.called = Called::Recipe;
            lent.recipe
                .read(text.as_bytes())
                .map_err(|_| anyhow!("bad recipe in the script"))?;
        }
        "CLASSIC" => lent.called = Called::Classic,
        _ => {
            let number = size_at(values.as_slice(), 0);
            match lent.called {
                Called::Recipe => call(&Bank { table: lent.recipe }, out, word, number, lent)?,
                Called::Classic => call(&Bank { table: Classic }, out, word, number, lent)?,
            }
        }
    }
    Ok(())
}

fn run<W: Write>(heap: Global, out: &mut W, script: &str) -> anyhow::Result<()> {
    let mut lent = Lent {
        shape: Shape {
            channels: 1,
            samples: 1,
            origin: 0,
        },
        spans: SpanList::new(),
        area: Vec::new(heap),
        recipe: Recipe::new(),
        called: Called::Recipe,
    };
    for line in script.lines() {
        obey(heap, out, line, &mut lent)?;
    }
    Ok(())
}

fn main(rt: HostRuntime) -> anyhow::Result<()> {
    let mut script = String::new(rt.alloc());
    rt.stdin().read_to_string(&mut script)?;
    let mut out = BufWriter::new(rt.alloc(), rt.stdout())?;
    run(rt.alloc(), &mut out, script.as_str())?;
    out.flush()?;
    Ok(())
}
