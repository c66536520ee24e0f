// What a side holds, in one walk along it.
ghost use Rattle.std.specs.Prelude.{◌≡◌, ◌+◌, ◌^◌, ◌<◌};
ghost use Rattle.sheets.specs.Sides.{of_side};
ghost use Rattle.pricing.specs.Surveys.{counted, surveyed};

use crate::span::Span;
use market::{Kind, Order, Side};
use sheets::OrderSheet;

/// The quantity of the market orders and of all orders, and the span of the limit prices.
#[derive(Clone, Copy, PartialEq, Eq, Default, Debug)]
pub(crate) struct Survey {
    pub(crate) market: u64,
    pub(crate) all: u64,
    pub(crate) limits: Option<Span>,
}

impl Survey {
    // With one order more.
    fn with(self, order: &Order) -> Survey
        requires market { self.market + order.now.quantity < 2 ^ 64 }
        requires all { self.all + order.now.quantity < 2 ^ 64 }
        ensures { result ≡ counted self order.now }
    {
        let quantity = u64::from(order.quantity);
        let all = self.all + quantity;
        match order.kind {
            Kind::Market => Survey {
                market: self.market + quantity,
                all,
                ..self
            },
            Kind::Limit => Survey {
                all,
                limits: Some(Span::widened(self.limits, order.price)),
                ..self
            },
        }
    }
}

// The survey of a side.
pub(crate) fn survey_of<S: OrderSheet>(sheet: &S, side: Side) -> Survey
    ensures { result ≡ surveyed (of_side side (S.OrderSheet.meaning sheet.now)) }
{
    let mut seen = Survey::default();
    let mut behind = None;
    while let Some(order) = sheet.next(side, behind) {
        seen = seen.with(&order);
        behind = Some(order.priority());
    }
    seen
}
