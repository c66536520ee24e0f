#![tactic(auto)]
// Lists the commands of an order tape that is read from standard input: a line for each with its
// ordinal, its place and its operands, and at the end how many there are, or the fault and its place.
mod end;
mod listing;
mod words;

use std::io::Read;

fn main(rt: HostRuntime) -> anyhow::Result<()> {
    let mut bytes = Vec::new(rt.alloc());
    rt.stdin().read_to_end(&mut bytes)?;
    let text = listing::listing(rt.alloc(), bytes.as_slice())?;
    rt.print(text.as_str())?;
    Ok(())
}
