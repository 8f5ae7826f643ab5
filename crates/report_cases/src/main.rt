// Reports on many texts, one after another: standard input has for each the number of its bytes, a line feed, and the bytes.
#![tactic(auto)]

use reporting::report::report;
use std::alloc::Global;
use std::io;
use std::io::{BufWriter, Read, Write};

// The text that comes first, and what follows it.
fn first_text(bytes: &[u8]) -> (&[u8], &[u8]) {
    let end = bytes
        .iter()
        .position(|b| *b == b'\n')
        .unwrap_or(bytes.len());
    let (digits, rest) = bytes.split_at(end);
    // As many digits as stand there, capped: `parse` would refuse a longer number.
    let size = digits.iter().fold(0usize, |size, b| {
        size.saturating_mul(10)
            .saturating_add(usize::from(b.saturating_sub(b'0')))
    });
    let text = rest.get(1..).unwrap_or_default();
    text.split_at(size.min(text.len()))
}

// As the program `report` prints it: programs share no crate.
fn write_report<W: Write>(heap: Global, out: &mut W, text: &[u8]) -> io::Result<()> {
    let lines = report(heap, text)?;
    for line in lines.iter() {
        writeln!(out, "{line}")?;
    }
    Ok(())
}

fn main(rt: HostRuntime) -> io::Result<()> {
    let mut all = Vec::new(rt.alloc());
    rt.stdin().read_to_end(&mut all)?;
    let mut out = BufWriter::new(rt.alloc(), rt.stdout())?;
    let mut rest = all.as_slice();
    // A bound, since only `first_text` knows that the rest gets shorter: a `while` would need a contract there.
    for case in 0..100000 {
        if rest.is_empty() {
            break;
        }
        writeln!(out, "case {case}")?;
        let (text, after) = first_text(rest);
        write_report(rt.alloc(), &mut out, text)?;
        rest = after;
    }
    out.flush()
}
