// Runs the jobs that the input asks for over the workload of a file, and prints what came of them.
#![tactic(auto)]

use std::fs;
use std::io::Read;
use yard_text::report::report;

fn main(rt: HostRuntime) -> anyhow::Result<()> {
    // A missing or unreadable file counts as an empty one.
    let file = fs::read(&rt, "work.tlw").unwrap_or_else(|_| Vec::new(rt.alloc()));
    let mut input = Vec::new(rt.alloc());
    rt.stdin().lock().read_to_end(&mut input)?;
    let text = report(rt.alloc(), file.as_slice(), input.as_slice())?;
    print!(rt; "{text}")?;
    Ok(())
}
