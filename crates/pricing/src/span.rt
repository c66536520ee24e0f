// The lowest and the highest of some prices.
ghost use Rattle.std.specs.Prelude.{◌≡◌};
ghost use Rattle.pricing.specs.Spans.{widened, joined_spans};

#[derive(Clone, Copy, PartialEq, Eq, Debug)]
pub(crate) struct Span {
    pub(crate) low: u32,
    pub(crate) high: u32,
}

impl Span {
    // With one price more.
    pub(crate) fn widened(span: Option<Span>, price: u32) -> Span
        ensures { result ≡ widened span price }
    {
        let Span { low, high } = span.unwrap_or(Span {
            low: price,
            high: price,
        });
        Span {
            low: low.min(price),
            high: high.max(price),
        }
    }

    // Of two lots of prices together.
    pub(crate) fn joined(one: Option<Span>, other: Option<Span>) -> Option<Span>
        ensures { result ≡ joined_spans one other }
    {
        match (one, other) {
            (Some(a), Some(b)) => Some(Span {
                low: a.low.min(b.low),
                high: a.high.max(b.high),
            }),
            (None, span) | (span, None) => span,
        }
    }
}
