// Orders of one side in an ordered list.
ghost use Rattle.std.specs.Prelude.{◌≡◌, ◌≤◌, false, length, is_some, find, position};
ghost use Rattle.ordered.specs.Lent.{RowsKept};
ghost use Rattle.ordered.specs.Meaning.{held, lent};
ghost use Rattle.sheets.specs.Sides.{numbered, is_behind, over, without};
ghost use Rattle.sheets.specs.Laws.{Apart};

use market::{Order, Priority, Side};
use ordered::OrderedList;

/// The orders of one side by priority.
pub(crate) type SideList<'a> = OrderedList<'a, Order, Side>;

// Whether there are `capacity` orders and none of that number; a list of one side knows how many
// it has, where `is_side_over` has to count.
pub(crate) fn is_over(orders: &[Order], capacity: usize, number: u32) -> bool
    ensures { result ≡ over capacity number orders.now }
{
    orders.len() >= capacity && !orders.iter().any(move |order| order.number == number)
}

// The first order of a list, or the first behind a priority.
pub(crate) fn next_in(list: &SideList, behind: Option<Priority>) -> Option<Order>
    ensures { result ≡ find (is_behind list.now.ranking behind) (held list.now) }
{
    match behind {
        None => list.first(),
        Some(priority) => list.first_behind(&priority),
    }
}

// The index of the order of that number.
fn index(list: &SideList, number: u32) -> Option<usize>
    ensures { result ≡ position (numbered number) (held list.now) }
{
    list.position(move |order| order.number == number)
}

// Takes the order of that number out of a list.
pub(crate) fn take_from(list: &mut SideList, number: u32) -> Option<Order>
    requires { Apart (held list.old) }
    ensures value { result ≡ find (numbered number) (held list.old) }
    ensures held { held list.new ≡ without number (held list.old) }
    ensures ranking { list.new.ranking ≡ list.old.ranking }
    ensures rows { RowsKept (lent list.old) (lent list.new) }
    ensures absent { is_some result ≡ false → list.new ≡ list.old }
{
    let at = index(list, number)?;
    Some(list.remove(at))
}
