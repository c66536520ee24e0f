#![tactic(auto)]
// Opens a book by an order tape that is read from standard input, and prints what it says to each
// command. The rule is flat: 1,000,000 ticks from 1,000 in steps of 1,000. A side has 256 orders.
mod closing;
mod listing;
mod said;

use anyhow::anyhow;
use market::{Kind, Order, Side};
use sheets::PrioritySheet;
use std::io::Read;
use ticks::Flat;

const SIDE_ORDERS: usize = 256;

// What the rows of the sheet hold before they are used.
const BLANK: Order = Order {
    number: 0,
    side: Side::Buy,
    kind: Kind::Limit,
    price: 0,
    rank: 0,
    quantity: 0,
    account: [0; 8],
};

fn open(rt: &HostRuntime) -> anyhow::Result<()> {
    let mut bytes = Vec::new(rt.alloc());
    rt.stdin().read_to_end(&mut bytes)?;
    let Ok(rule) = Flat::new(1_000, 1_000, 1_000_000) else {
        return Err(anyhow!("the tick rule is not sound"));
    };
    let mut buys = [BLANK; SIDE_ORDERS];
    let mut offers = [BLANK; SIDE_ORDERS];
    let sheet = PrioritySheet::new(&mut buys, &mut offers);
    let text = listing::listing(rt.alloc(), rule, sheet, bytes.as_slice())?;
    rt.print(text.as_str())?;
    Ok(())
}

fn main(rt: HostRuntime) -> anyhow::Result<()> {
    open(&rt)
}
