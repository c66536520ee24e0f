//! Prints a short ladder of each kind of tick rule: every tick from the lowest up, and behind one
//! that is not admitted the letter of its cause.
#![tactic(auto)]

use std::io;
use ticks::{Banded, DailyBand, Flat, Row, TickRule};

// A tick, and the letter of its cause where it is not admitted.
fn print_tick<R: TickRule>(rt: HostRuntime, rule: &R, tick: u32) -> io::Result<()> {
    match rule.admit(tick) {
        Ok(()) => println!(rt; "  {tick}"),
        Err(cause) => {
            let letter = cause.letter();
            println!(rt; "  {tick} {letter}")
        }
    }
}

// Every tick of the rule, a line for each below the title.
fn print_ladder<R: TickRule>(rt: HostRuntime, title: &str, rule: &R) -> io::Result<()> {
    println!(rt; "{title}")?;
    let mut at = 0;
    while let Some(tick) = rule.above(at) {
        print_tick(rt, rule, tick)?;
        at = tick;
    }
    Ok(())
}

fn print_refusal(rt: HostRuntime, number: u8) -> io::Result<()> {
    println!(rt; "refused {number}")
}

fn main(rt: HostRuntime) -> io::Result<()> {
    match Flat::new(100_000, 500, 6) {
        Ok(flat) => print_ladder(rt, "flat: 6 ticks from 100000 by 500", &flat)?,
        Err(fault) => print_refusal(rt, fault.number())?,
    }
    let mut banded = Banded::new();
    let rows = [Row { start: 10, step: 2 }, Row { start: 20, step: 5 }];
    if let Err(fault) = banded.load(&rows, 30) {
        return print_refusal(rt, fault.number());
    }
    print_ladder(rt, "banded: from 10 by 2, from 20 by 5, up to 30", &banded)?;
    let band = DailyBand::new(&banded, 14, 25);
    print_ladder(rt, "daily band: 14 to 25 over the banded rule", &band)
}
