// The pass up the ladder.
ghost use Rattle.std.specs.Prelude.{◌≡◌, unwrap_or};
ghost use Rattle.std.specs.List.{AllByRecursion};
ghost use Rattle.ticks.specs.Questions.{Tick};
ghost use Rattle.sheets.specs.Sides.{standing};
ghost use Rattle.pricing.specs.Ladder.{limits, bottom, top};
ghost use Rattle.pricing.specs.Pricing.{interest_of};
ghost use Rattle.pricing.specs.Tallies.{rung_at};
ghost use Rattle.pricing.specs.Passes.{tally_over, auction_at};

use crate::rung::{Indication, Rung};
use crate::span::Span;
use crate::survey::survey_of;
use crate::tally::Tally;
use crate::totals::quantity_at;
use market::Side;
use sheets::OrderSheet;
use ticks::TickRule;

// Climbs from a rung to the top, with the quantities bid and asked carried from tick to tick.
fn climb<R: TickRule, S: OrderSheet>(
    rule: &R,
    sheet: &S,
    first: Rung,
    top: u32,
    reference: u32,
) -> Tally
    requires rung { first ≡ rung_at (interest_of (S.OrderSheet.meaning sheet.now) reference) first.price }
    requires end { Tick (R.TickRule.ticks rule.now) top }
    requires limits { AllByRecursion (Tick (R.TickRule.ticks rule.now)) (limits (standing (S.OrderSheet.meaning sheet.now))) }
    ensures { result ≡ tally_over (R.TickRule.ticks rule.now) (interest_of (S.OrderSheet.meaning sheet.now) reference) first.price top }
{
    let mut at = first;
    let mut tally = Tally::alone(first);
    while at.price < top {
        let Some(price) = rule.above(at.price) else {
            break;
        };
        let bid = at.bid - quantity_at(sheet, Side::Buy, at.price);
        let ask = at.ask + quantity_at(sheet, Side::Offer, price);
        at = Rung { price, bid, ask };
        tally = tally.next(at, reference);
    }
    tally
}

/// The price of the auction over the orders of a sheet, each limit price of which is a tick;
/// `reference` is the last sale, or the prior price where there is none.
pub fn price<R: TickRule, S: OrderSheet>(rule: &R, sheet: &S, reference: u32) -> Option<Indication>
    requires { AllByRecursion (Tick (R.TickRule.ticks rule.now)) (limits (standing (S.OrderSheet.meaning sheet.now))) }
    ensures { result ≡ auction_at (R.TickRule.ticks rule.now) (S.OrderSheet.meaning sheet.now) reference }
{
    let buys = survey_of(sheet, Side::Buy);
    let offers = survey_of(sheet, Side::Offer);
    let Some(Span { low, high }) = Span::joined(buys.limits, offers.limits) else {
        let only = Rung {
            price: reference,
            bid: buys.market,
            ask: offers.market,
        };
        return Tally::alone(only).auction();
    };
    let low = rule.below(low).unwrap_or(low);
    let high = rule.above(high).unwrap_or(high);
    let first = Rung {
        price: low,
        bid: buys.all,
        ask: offers.market + quantity_at(sheet, Side::Offer, low),
    };
    climb(rule, sheet, first, high, reference).auction()
}
