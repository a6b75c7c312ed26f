//! Reads a book from standard input and prints the house that it makes, or why it is refused. Where files are named as
//! arguments, it does so for each, behind a line with the name; `-` is standard input.
#![tactic(auto)]

mod listing;
mod report;

use house::MOST_BYTES;
use std::env;
use std::fs::File;
use std::io::{Read, Write};

/// Reads no more than says that a book is too long.
fn check(rt: &HostRuntime, source: impl Read + Drop) -> anyhow::Result<()> {
    let heap = rt.alloc();
    let mut book = Vec::new(heap);
    source.take(MOST_BYTES as u64 + 1).read_to_end(&mut book)?;
    let text = report::report(heap, book.as_slice())?;
    rt.stdout().write_all(text.as_slice())?;
    Ok(())
}

fn main(rt: HostRuntime) -> anyhow::Result<()> {
    let mut named = false;
    for name in env::args(&rt)?.skip(1) {
        named = true;
        println!(rt; "book {name}")?;
        if name.as_str() == "-" {
            check(&rt, rt.stdin())?;
        } else {
            check(&rt, File::open(&rt, name.as_str())?)?;
        }
    }
    if !named {
        check(&rt, rt.stdin())?;
    }
    Ok(())
}
