// Totals of a side, by a walk along it.
ghost use Rattle.std.specs.Prelude.{◌≡◌};
ghost use Rattle.sheets.specs.Sides.{of_side};
ghost use Rattle.pricing.specs.Totals.{edge};
ghost use Rattle.pricing.specs.Walk.{quantity_at};

use market::{Kind, Priority, Side};
use sheets::OrderSheet;

// The last place before the limit orders at a price.
fn just_before(side: Side, price: u32) -> Priority
    ensures { result ≡ edge side price }
{
    // past the best price of all stand the market orders
    let (price, is_past) = match side {
        Side::Buy => price.overflowing_add(1),
        Side::Offer => price.overflowing_sub(1),
    };
    Priority {
        kind: if is_past { Kind::Market } else { Kind::Limit },
        price,
        rank: u32::MAX,
        number: u32::MAX,
    }
}

// The quantity of a side's limit orders at a price.
pub(crate) fn quantity_at<S: OrderSheet>(sheet: &S, side: Side, price: u32) -> u64
    ensures { result ≡ quantity_at price (of_side side (S.OrderSheet.meaning sheet.now)) }
{
    let mut total = 0;
    let mut behind = just_before(side, price);
    while let Some(order) = sheet.next(side, Some(behind)) {
        if order.price != price {
            break;
        }
        total += u64::from(order.quantity);
        behind = order.priority();
    }
    total
}
