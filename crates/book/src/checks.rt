// What is judged before an order is written.
ghost use Rattle.std.specs.Prelude.{◌≡◌, ℕ, ◌+◌, IfOk};
ghost use Rattle.std.specs.Result.{result_map_both};
ghost use Rattle.ticks.specs.Ticks.{admitted};
ghost use Rattle.calls.specs.Listed.{refusal_in};
ghost use Rattle.calls.specs.Machine.{start_due, quantity_due, price_due, rank_due, loses_place};
ghost use Rattle.book.specs.Books.{rule_of};

use calls::{PriceFault, ReferenceFault, Refusal};
use market::limits::{MAX_QUANTITY, MAX_RANK};
use market::{Kind, Order};
use ticks::TickRule;

// Whether the rule admits the prior price or the last sale.
fn check_reference<R: TickRule>(rule: &R, price: u32) -> Result<(), ReferenceFault>
    ensures { result_map_both (λ x. x) (λ f. f.0) result ≡ admitted (R.TickRule.ticks rule.now) (R.TickRule.floor rule.now) (R.TickRule.ceiling rule.now) price }
{
    rule.admit(price)?;
    Ok(())
}

// The prices that a book is started with.
pub(crate) fn check_start<R: TickRule>(rule: &R, prior: u32, last: u32) -> Result<(), Refusal>
    ensures { refusal_in result ≡ start_due (rule_of R.TickRule rule.now) prior last }
{
    check_reference(rule, prior)?;
    if last != 0 {
        check_reference(rule, last)?;
    }
    Ok(())
}

// The quantity of an order.
pub(crate) fn check_quantity(quantity: u32) -> Result<(), Refusal>
    ensures { refusal_in result ≡ quantity_due quantity }
{
    if quantity == 0 || quantity > MAX_QUANTITY {
        return Err(Refusal::Quantity);
    }
    Ok(())
}

// Whether the rule admits a limit price, or a market price is 0.
fn check_kind<R: TickRule>(rule: &R, kind: Kind, price: u32) -> Result<(), PriceFault>
    ensures { refusal_in (result_map_both (λ x. x) Refusal.Price result) ≡ price_due (rule_of R.TickRule rule.now) kind price }
{
    match kind {
        Kind::Limit => rule.admit(price)?,
        Kind::Market => {
            if price != 0 {
                return Err(PriceFault::MarketPriced);
            }
        }
    }
    Ok(())
}

// The price of an order.
pub(crate) fn check_price<R: TickRule>(rule: &R, kind: Kind, price: u32) -> Result<(), Refusal>
    ensures { refusal_in result ≡ price_due (rule_of R.TickRule rule.now) kind price }
{
    check_kind(rule, kind, price)?;
    Ok(())
}

// The rank after those that are used.
pub(crate) fn next_rank(used: u32) -> Result<u32, Refusal>
    ensures { (refusal_in result ≡ rank_due used) × (IfOk result (λ rank. rank ≡ used + 1)) }
{
    if used >= MAX_RANK {
        return Err(Refusal::RanksSpent);
    }
    Ok(used + 1)
}

// Whether an order loses its place in the queue: by a new price or a raise.
pub(crate) fn loses_place(order: &Order, price: u32, quantity: u32) -> bool
    ensures { result ≡ loses_place order.now price quantity }
{
    price != order.price || quantity > order.quantity
}
