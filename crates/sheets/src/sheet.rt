// What every order sheet does.
ghost use Rattle.std.specs.Prelude.{◌≡◌, ℕ, ◌+◌, not, List, length, is_some, is_ok, if◌then◌else◌, MatchBool};
ghost use Rattle.sheets.specs.Sides.{Sides, find_in, take_from, full, put_in, next_in};
ghost use Rattle.sheets.specs.Rows.{Row, occupied, SpareRowsKept, arranged};
ghost use Rattle.sheets.specs.Laws.{SheetLaws};

use market::{Order, Priority, Side};

/// The order's side holds as many orders as it can.
#[derive(Clone, Copy, PartialEq, Eq, Debug)]
pub struct SideFull;

/// A set of orders, no number twice, with room for as many on each side.
pub trait OrderSheet {
    // the orders of each side, by priority
    ghost meaning: { Self → Sides };

    // how many orders a side can hold
    ghost room: { Self → ℕ };

    // the rows that the sheet was lent
    ghost rows: { Self → List Row };

    ghost laws: { (s : Self) → SheetLaws (room s) (meaning s) };

    // the rows that are not spare hold the standing orders, and no others
    ghost stored: { (s : Self) → arranged (occupied (rows s)) ≡ meaning s };

    /// Stores the order in place of the one with its number, on whichever side that stood. Refused
    /// exactly where that number does not stand on the order's side and that side is full. A refused
    /// put leaves every row as it was, any other every row that is spare afterwards.
    fn put(&mut self, order: Order) -> Result<(), SideFull>
        ensures test { is_ok result ≡ not (full (room self.old) order (meaning self.old)) }
        ensures after { meaning self.new ≡ (if full (room self.old) order (meaning self.old) then meaning self.old else put_in order (meaning self.old)) }
        ensures size { room self.new ≡ room self.old }
        ensures rows { MatchBool (full (room self.old) order (meaning self.old)) (rows self.new ≡ rows self.old) (SpareRowsKept (rows self.old) (rows self.new)) };

    /// Removes the order of that number and answers it. Where there is none every row is left as it
    /// was, else every row that is spare afterwards: the one set free keeps an order, which does not
    /// stand any more.
    fn take(&mut self, number: u32) -> Option<Order>
        ensures value { result ≡ find_in number (meaning self.old) }
        ensures after { meaning self.new ≡ take_from number (meaning self.old) }
        ensures size { room self.new ≡ room self.old }
        ensures rows { MatchBool (is_some (find_in number (meaning self.old))) (SpareRowsKept (rows self.old) (rows self.new)) (rows self.new ≡ rows self.old) };

    /// The order of that number.
    fn find(&self, number: u32) -> Option<Order>
        ensures { result ≡ find_in number (meaning self.now) };

    /// The first order of a side, or the first one behind a priority.
    fn next(&self, side: Side, behind: Option<Priority>) -> Option<Order>
        ensures { result ≡ next_in side behind (meaning self.now) };

    /// How many orders stand, both sides together.
    fn count(&self) -> usize
        ensures { result ≡ length (meaning self.now).buys + length (meaning self.now).offers };
}
