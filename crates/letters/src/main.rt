//! Prints the letters of a capture that is read from standard input.
#![tactic(auto)]

mod report;

use std::io::Read;

fn main(rt: HostRuntime) -> anyhow::Result<()> {
    let heap = rt.alloc();
    let mut capture = Vec::new(heap);
    rt.stdin().read_to_end(&mut capture)?;
    let text = report::report(heap, &capture)?;
    rt.print(text)?;
    Ok(())
}
