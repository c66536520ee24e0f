// Orders of both sides, in any order.
ghost use Rattle.std.specs.Prelude.{◌≡◌, true, length, filter, find};
ghost use Rattle.sheets.specs.Sides.{is_behind, on, over};
ghost use Rattle.sheets.specs.Rows.{line};
ghost use Rattle.sheets.specs.Tests.{is_apart};
ghost use Rattle.sheets.specs.Scans.{first_with};

use market::{Order, Priority, Side};

// Whether an order comes behind a priority of its side, where one is given; side and priority are the
// operands of `next`.
fn is_behind(side: Side, behind: Option<Priority>, order: &Order) -> bool
    ensures { result ≡ is_behind side behind order.now }
{
    behind.is_none_or(|priority| side.leads(&priority, &order.priority()))
}

// The first order of a side behind a priority so far, with one more seen.
fn first_with(
    side: Side,
    behind: Option<Priority>,
    first: Option<Order>,
    order: &Order,
) -> Option<Order>
    ensures { result ≡ first_with side behind order.now first }
{
    if order.side != side || !is_behind(side, behind, order) {
        return first;
    }
    match first {
        Some(other) if !side.leads(&order.priority(), &other.priority()) => first,
        _ => Some(*order),
    }
}

// The first order of a side, or the first behind a priority.
pub(crate) fn first_in(side: Side, orders: &[Order], behind: Option<Priority>) -> Option<Order>
    requires { is_apart orders.now ≡ true }
    ensures { result ≡ find (is_behind side behind) (line side orders.now) }
{
    orders.iter().rev().fold(None, |first, order| first_with(side, behind, first, order))
}

// How many orders are of a side. By a loop: `filter` and `count` take three times as long.
fn count_on(side: Side, orders: &[Order]) -> usize
    ensures { result ≡ length (filter (on side) orders.now) }
{
    let mut count = 0;
    for order in orders {
        if order.side == side {
            count += 1;
        }
    }
    count
}

// Whether a side has `capacity` orders and none of that number.
pub(crate) fn is_side_over(side: Side, orders: &[Order], capacity: usize, number: u32) -> bool
    ensures { result ≡ over capacity number (line side orders.now) }
{
    count_on(side, orders) >= capacity
        && !orders
            .iter()
            .any(move |order| order.side == side && order.number == number)
}
