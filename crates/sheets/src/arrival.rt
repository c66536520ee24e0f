// A sheet that keeps orders where they were put.
ghost use Rattle.std.specs.Prelude.{◌≡◌, ◌+◌, true};
ghost use Rattle.ordered.specs.Lent.{entries, size};
ghost use Rattle.sheets.specs.Rows.{arranged};
ghost use Rattle.sheets.specs.Tests.{is_apart, is_sheet};

use crate::scans::{first_in, is_side_over};
use crate::sheet::{OrderSheet, SideFull};
use market::limits::MAX_SIDE_ORDERS;
use market::{Order, Priority, Side};
use ordered::LentList;

/// Orders of both sides in one lot of rows, twice the capacity of a side, in the order of arrival.
#[derive(Drop)]
pub struct ArrivalSheet<'a> {
    orders: LentList<'a, Order>,
    capacity: usize,
    ghost both: { size orders ≡ capacity + capacity },
    ghost apart: { is_apart (entries orders) ≡ true },
    ghost lawful: { is_sheet capacity (arranged (entries orders)) ≡ true },
}

impl<'a> ArrivalSheet<'a> {
    ghost use Rattle.std.specs.Prelude.{◌/◌, min, false, [], length, take, is_some, MatchBool, position};
    ghost use Rattle.sheets.specs.Sides.{sides_of, numbered, find_in, take_from, full, put_in, without};
    ghost use Rattle.sheets.specs.Rows.{marked, SpareRowsKept, put_of};
    ghost use Rattle.sheets.specs.Held.{arrivals, held_by_arrival, rows_by_arrival};

    /// An empty sheet, whatever the rows hold: a side has room for half as many orders as there are
    /// rows, rounded down, and for 2,048 at most. It writes no row, and the sheet reaches no row past
    /// twice that many.
    pub fn new(rows: &'a mut [Order]) -> ArrivalSheet<'a>
        ensures empty { held_by_arrival result ≡ sides_of [] [] }
        ensures size { result.capacity ≡ min (length rows.old / 2) 2048 }
        ensures rows { rows_by_arrival result ≡ marked 0 (take (result.capacity + result.capacity) rows.old) }
    {
        let capacity = (rows.len() / 2).min(MAX_SIDE_ORDERS);
        ArrivalSheet {
            orders: LentList::new(&mut rows[..capacity + capacity], 0),
            capacity,
        }
    }

    // The index of the order of that number.
    fn index(&self, number: u32) -> Option<usize>
        ensures { result ≡ position (numbered number) (arrivals self.now) }
    {
        self.orders.position(move |order| order.number == number)
    }

    // Whether the order has no place on its side.
    fn has_no_place(&self, order: &Order) -> bool
        ensures { result ≡ full self.now.capacity order.now (held_by_arrival self.now) }
    {
        is_side_over(
            order.side,
            self.orders.as_slice(),
            self.capacity,
            order.number,
        )
    }

    // Stores an order that has a place.
    fn accept(&mut self, order: Order)
        requires { full self.old.capacity order (held_by_arrival self.old) ≡ false }
        ensures after { held_by_arrival self.new ≡ put_in order (held_by_arrival self.old) }
        ensures size { self.new.capacity ≡ self.old.capacity }
        ensures rows { SpareRowsKept (rows_by_arrival self.old) (rows_by_arrival self.new) }
        ensures order { arrivals self.new ≡ put_of (numbered order.number) order (arrivals self.old) }
    {
        match self.index(order.number) {
            Some(at) => self.orders.set(at, order),
            None => self.orders.push(order),
        }
    }

    // Takes out the order of that number.
    fn remove(&mut self, number: u32) -> Option<Order>
        ensures value { result ≡ find_in number (held_by_arrival self.old) }
        ensures after { held_by_arrival self.new ≡ take_from number (held_by_arrival self.old) }
        ensures size { self.new.capacity ≡ self.old.capacity }
        ensures rows { MatchBool (is_some (find_in number (held_by_arrival self.old))) (SpareRowsKept (rows_by_arrival self.old) (rows_by_arrival self.new)) (rows_by_arrival self.new ≡ rows_by_arrival self.old) }
        ensures order { arrivals self.new ≡ without number (arrivals self.old) }
    {
        let at = self.index(number)?;
        Some(self.orders.remove(at))
    }
}

impl<'a> OrderSheet for ArrivalSheet<'a> {
    ghost use Rattle.std.specs.Prelude.{not, is_ok, is_some, if◌then◌else◌, MatchBool};
    ghost use Rattle.sheets.specs.Sides.{numbered, find_in, take_from, full, put_in, without};
    ghost use Rattle.sheets.specs.Rows.{SpareRowsKept, put_of};
    ghost use Rattle.sheets.specs.Held.{arrivals, held_by_arrival, rows_by_arrival};
    ghost use Rattle.sheets.specs.Evidence.{arrival_laws, arrival_stored};

    ghost meaning = { held_by_arrival };

    ghost room = { λ s. s.capacity };

    ghost rows = { rows_by_arrival };

    ghost laws = { arrival_laws };

    ghost stored = { arrival_stored };

    // A replacement stands in its old row, a new order behind all others.
    fn put(&mut self, order: Order) -> Result<(), SideFull>
        ensures test { is_ok result ≡ not (full self.old.capacity order (held_by_arrival self.old)) }
        ensures after { held_by_arrival self.new ≡ (if full self.old.capacity order (held_by_arrival self.old) then held_by_arrival self.old else put_in order (held_by_arrival self.old)) }
        ensures size { self.new.capacity ≡ self.old.capacity }
        ensures rows { MatchBool (full self.old.capacity order (held_by_arrival self.old)) (rows_by_arrival self.new ≡ rows_by_arrival self.old) (SpareRowsKept (rows_by_arrival self.old) (rows_by_arrival self.new)) }
        ensures order { arrivals self.new ≡ (if full self.old.capacity order (held_by_arrival self.old) then arrivals self.old else put_of (numbered order.number) order (arrivals self.old)) }
    {
        if self.has_no_place(&order) {
            return Err(SideFull);
        }
        self.accept(order);
        Ok(())
    }

    // The orders that arrived later move up.
    fn take(&mut self, number: u32) -> Option<Order>
        ensures value { result ≡ find_in number (held_by_arrival self.old) }
        ensures after { held_by_arrival self.new ≡ take_from number (held_by_arrival self.old) }
        ensures size { self.new.capacity ≡ self.old.capacity }
        ensures rows { MatchBool (is_some (find_in number (held_by_arrival self.old))) (SpareRowsKept (rows_by_arrival self.old) (rows_by_arrival self.new)) (rows_by_arrival self.new ≡ rows_by_arrival self.old) }
        ensures order { arrivals self.new ≡ without number (arrivals self.old) }
    {
        self.remove(number)
    }

    fn find(&self, number: u32) -> Option<Order> {
        self.orders.find(move |order| order.number == number)
    }

    fn next(&self, side: Side, behind: Option<Priority>) -> Option<Order> {
        first_in(side, self.orders.as_slice(), behind)
    }

    #[tactic(auto, using(crate::proofs::Lines::count_arranged))]
    fn count(&self) -> usize {
        self.orders.len()
    }
}
