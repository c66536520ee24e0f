// The book and its calls.
ghost use Rattle.std.specs.Prelude.{◌≡◌, true, length};
ghost use Rattle.std.specs.List.{AllByRecursion};
ghost use Rattle.calls.specs.declared.call.Call.TheVariants.{Start, Enter, Withdraw, Amend};
ghost use Rattle.calls.specs.State.{opened};
ghost use Rattle.sheets.specs.Sides.{find_in};
ghost use Rattle.calls.specs.Machine.{start_due, enter_due, withdraw_due, amend_due};
ghost use Rattle.book.specs.Books.{rule_of, setting_of, state_of, Took, Takes};

use crate::checks::{check_price, check_quantity, check_start, loses_place, next_rank};
use crate::clear::clear;
use calls::{Answer, Call, Phase, Refusal};
use market::{Order, Terms};
use sheets::OrderSheet;
use ticks::TickRule;

/// A book over a tick rule and an order sheet. The prior price is the settlement or IPO price, 0
/// before the start; `used` counts the ranks that were given.
#[derive(Drop)]
pub struct Book<R: TickRule, S: OrderSheet> {
    phase: Phase,
    prior: u32,
    last: Option<u32>,
    used: u32,
    rule: R,
    sheet: S,
}

impl<R: TickRule, S: OrderSheet> Book<R, S> {
    /// A shut book over a sheet that is emptied first. It has as many rows as before, each of them
    /// spare.
    pub fn new(rule: R, mut sheet: S) -> Book<R, S>
        ensures state { state_of S.OrderSheet result ≡ opened }
        ensures rule { result.rule ≡ rule }
        ensures size { S.OrderSheet.room result.sheet ≡ S.OrderSheet.room sheet }
        ensures rows { length (S.OrderSheet.rows result.sheet) ≡ length (S.OrderSheet.rows sheet) }
        ensures spare { AllByRecursion (λ row. row.spare ≡ true) (S.OrderSheet.rows result.sheet) }
    {
        clear(&mut sheet);
        Book {
            phase: Phase::Shut,
            prior: 0,
            last: None,
            used: 0,
            rule,
            sheet,
        }
    }

    // From shut to calling; the two prices are the operands of one call.
    fn start(&mut self, prior: u32, last: u32) -> Result<Answer, Refusal>
        ensures { Took S.OrderSheet (start_due (rule_of R.TickRule self.old.rule) prior last) (Start prior last) self.old result self.new }
    {
        check_start(&self.rule, prior, last)?;
        self.phase = Phase::Calling;
        self.prior = prior;
        self.last = (last != 0).then_some(last);
        Ok(Answer::Started)
    }

    // A new order under the next rank, which is its number too.
    fn enter(&mut self, terms: Terms<[u8; 8]>) -> Result<Answer, Refusal>
        ensures { Took S.OrderSheet (enter_due (setting_of R.TickRule S.OrderSheet self.old) (state_of S.OrderSheet self.old) terms) (Enter terms) self.old result self.new }
    {
        let Terms {
            side,
            kind,
            price,
            quantity,
            account,
        } = terms;
        check_quantity(quantity)?;
        check_price(&self.rule, kind, price)?;
        let rank = next_rank(self.used)?;
        self.sheet.put(Order {
            number: rank,
            side,
            kind,
            price,
            rank,
            quantity,
            account,
        })?;
        self.used = rank;
        Ok(Answer::Entered(rank))
    }

    // Takes an order out: what stood of it.
    fn withdraw(&mut self, number: u32) -> Result<Answer, Refusal>
        ensures { Took S.OrderSheet (withdraw_due (find_in number (S.OrderSheet.meaning self.old.sheet))) (Withdraw number) self.old result self.new }
    {
        let order = self.sheet.take(number).ok_or(Refusal::UnknownNumber)?;
        Ok(Answer::Withdrawn(order.quantity))
    }

    // Sets an order's price and standing quantity; a new price or a raise takes the next rank. The three
    // are the operands of one call, and nothing is asked of them together.
    fn amend(&mut self, number: u32, price: u32, quantity: u32) -> Result<Answer, Refusal>
        ensures { Took S.OrderSheet (amend_due (rule_of R.TickRule self.old.rule) self.old.used (find_in number (S.OrderSheet.meaning self.old.sheet)) price quantity) (Amend number price quantity) self.old result self.new }
    {
        let order = self.sheet.find(number).ok_or(Refusal::UnknownNumber)?;
        check_quantity(quantity)?;
        check_price(&self.rule, order.kind, price)?;
        let (rank, used) = if loses_place(&order, price, quantity) {
            let next = next_rank(self.used)?;
            (next, next)
        } else {
            (order.rank, self.used)
        };
        self.sheet.put(Order {
            price,
            rank,
            quantity,
            ..order
        })?;
        self.used = used;
        Ok(Answer::Amended(number))
    }

    /// Makes one call: start only where the book is shut, all else only where it is calling.
    pub fn call(&mut self, call: Call) -> Result<Answer, Refusal>
        ensures { Takes R.TickRule S.OrderSheet call self.old result self.new }
    {
        match (self.phase, call) {
            (Phase::Shut, Call::Start { prior, last }) => self.start(prior, last),
            (Phase::Shut, _) => Err(Refusal::Shut),
            (Phase::Calling, Call::Start { .. }) => Err(Refusal::AlreadyCalling),
            (Phase::Calling, Call::Enter(terms)) => self.enter(terms),
            (Phase::Calling, Call::Withdraw { number }) => self.withdraw(number),
            (
                Phase::Calling,
                Call::Amend {
                    number,
                    price,
                    quantity,
                },
            ) => self.amend(number, price, quantity),
            (Phase::Calling, Call::Show { number }) => Ok(Answer::Shown(self.sheet.find(number))),
        }
    }
}
