// A sheet with one ordered list a side.
ghost use Rattle.std.specs.Prelude.{◌≡◌, true};
ghost use Rattle.market.specs.declared.order.Side.TheVariants.{Buy, Offer};
ghost use Rattle.ordered.specs.Lent.{size};
ghost use Rattle.ordered.specs.Meaning.{held, lent};
ghost use Rattle.sheets.specs.Sides.{sides_of};
ghost use Rattle.sheets.specs.Tests.{is_sheet};

use crate::lists::{SideList, is_over, next_in, take_from};
use crate::sheet::{OrderSheet, SideFull};
use market::limits::MAX_SIDE_ORDERS;
use market::{Order, Priority, Side};
use ordered::{LentList, OrderedList};

/// The buys and the offers, each in a list by priority over `capacity` rows. The capacity is the N of
/// the rules, and is kept beside the rows as that.
#[derive(Drop)]
pub struct PrioritySheet<'a> {
    buys: SideList<'a>,
    offers: SideList<'a>,
    capacity: usize,
    ghost buys_by: { buys.ranking ≡ Buy },
    ghost offers_by: { offers.ranking ≡ Offer },
    ghost buys_rows: { size (lent buys) ≡ capacity },
    ghost offers_rows: { size (lent offers) ≡ capacity },
    ghost lawful: { is_sheet capacity (sides_of (held buys) (held offers)) ≡ true },
}

impl<'a> PrioritySheet<'a> {
    ghost use Rattle.std.specs.Prelude.{◌<◌, ◌≤◌, min, false, [], ◌++◌, length, take, is_some, MatchBool};
    ghost use Rattle.sheets.specs.Sides.{of_side, standing, find_in, take_from, full, joined, put_in};
    ghost use Rattle.sheets.specs.Rows.{marked, SpareRowsKept};
    ghost use Rattle.sheets.specs.Laws.{Free};
    ghost use Rattle.sheets.specs.Held.{held_by_priority, rows_by_priority, ListsKept, NoShorter};

    /// An empty sheet, whatever the rows hold: a side has room for as many orders as the shorter lot
    /// has rows, and for 2,048 at most. It writes no row, and the sheet reaches no row past those.
    pub fn new(buys: &'a mut [Order], offers: &'a mut [Order]) -> PrioritySheet<'a>
        ensures empty { held_by_priority result ≡ sides_of [] [] }
        ensures size { result.capacity ≡ min (min (length buys.old) (length offers.old)) 2048 }
        ensures rows { rows_by_priority result ≡ marked 0 (take result.capacity buys.old) ++ marked 0 (take result.capacity offers.old) }
    {
        let capacity = buys.len().min(offers.len()).min(MAX_SIDE_ORDERS);
        PrioritySheet {
            buys: OrderedList::new(LentList::new(&mut buys[..capacity], 0), Side::Buy),
            offers: OrderedList::new(LentList::new(&mut offers[..capacity], 0), Side::Offer),
            capacity,
        }
    }

    // The list of one side.
    fn list(&self, side: Side) -> &SideList<'a>
        ensures by { result.now.ranking ≡ side }
        ensures held { held result.now ≡ of_side side (held_by_priority self.now) }
    {
        match side {
            Side::Buy => &self.buys,
            Side::Offer => &self.offers,
        }
    }

    // Takes the order of that number out, on whichever side it stands. No `or_else`: what its closure
    // answers isn't known to the contract.
    fn remove(&mut self, number: u32) -> Option<Order>
        ensures value { result ≡ find_in number (held_by_priority self.old) }
        ensures after { held_by_priority self.new ≡ take_from number (held_by_priority self.old) }
        ensures size { self.new.capacity ≡ self.old.capacity }
        ensures rows { MatchBool (is_some (find_in number (held_by_priority self.old))) (SpareRowsKept (rows_by_priority self.old) (rows_by_priority self.new)) (rows_by_priority self.new ≡ rows_by_priority self.old) }
        ensures spare { ListsKept self.old self.new }
    {
        if let Some(order) = take_from(&mut self.buys, number) {
            return Some(order);
        }
        take_from(&mut self.offers, number)
    }

    // Puts an order of a new number in its place.
    fn add(&mut self, order: Order)
        requires fresh { Free order.number (standing (held_by_priority self.old)) }
        requires place { length (of_side order.side (held_by_priority self.old)) < self.old.capacity }
        ensures after { held_by_priority self.new ≡ sides_of (joined Buy order (held_by_priority self.old).buys) (joined Offer order (held_by_priority self.old).offers) }
        ensures size { self.new.capacity ≡ self.old.capacity }
        ensures spare { ListsKept self.old self.new }
        ensures longer { NoShorter self.old self.new }
    {
        match order.side {
            Side::Buy => self.buys.insert(order),
            Side::Offer => self.offers.insert(order),
        }
    }

    // Whether the order has no place on its side.
    fn has_no_place(&self, order: &Order) -> bool
        ensures { result ≡ full self.now.capacity order.now (held_by_priority self.now) }
    {
        is_over(
            self.list(order.side).as_slice(),
            self.capacity,
            order.number,
        )
    }

    // Stores an order that has a place.
    fn accept(&mut self, order: Order)
        requires { full self.old.capacity order (held_by_priority self.old) ≡ false }
        ensures after { held_by_priority self.new ≡ put_in order (held_by_priority self.old) }
        ensures size { self.new.capacity ≡ self.old.capacity }
        ensures rows { SpareRowsKept (rows_by_priority self.old) (rows_by_priority self.new) }
    {
        let _ = self.remove(order.number);
        self.add(order);
    }
}

impl<'a> OrderSheet for PrioritySheet<'a> {
    ghost use Rattle.sheets.specs.Held.{held_by_priority, rows_by_priority};
    ghost use Rattle.sheets.specs.Evidence.{priority_laws, priority_stored};

    ghost meaning = { held_by_priority };

    ghost room = { λ s. s.capacity };

    ghost rows = { rows_by_priority };

    ghost laws = { priority_laws };

    ghost stored = { priority_stored };

    // As in the arrival sheet: a sheet has five operations, and no sixth that both puts could share.
    fn put(&mut self, order: Order) -> Result<(), SideFull> {
        if self.has_no_place(&order) {
            return Err(SideFull);
        }
        self.accept(order);
        Ok(())
    }

    fn take(&mut self, number: u32) -> Option<Order> {
        self.remove(number)
    }

    // As in `remove`, no `or_else`.
    fn find(&self, number: u32) -> Option<Order> {
        let sought = move |order: &Order| order.number == number;
        if let Some(order) = self.buys.find(sought) {
            return Some(order);
        }
        self.offers.find(sought)
    }

    // In logarithmic time.
    fn next(&self, side: Side, behind: Option<Priority>) -> Option<Order> {
        next_in(self.list(side), behind)
    }

    fn count(&self) -> usize {
        self.buys.as_slice().len() + self.offers.as_slice().len()
    }
}
