// Reads a SET line and a recipe from standard input, and prints the spans of every channel after every stage.
#![tactic(auto)]

use reporting::report::report;
use std::io;
use std::io::{BufWriter, Read, Write};

// One byte more than a text may have, so that a longer one is seen to be too long.
const MOST: u64 = 65537;

fn main(rt: HostRuntime) -> io::Result<()> {
    let mut text = Vec::new(rt.alloc());
    rt.stdin().take(MOST).read_to_end(&mut text)?;
    let lines = report(rt.alloc(), text.as_slice())?;
    let mut out = BufWriter::new(rt.alloc(), rt.stdout())?;
    for line in lines.iter() {
        writeln!(out, "{line}")?;
    }
    out.flush()
}
