//! The daily band: a lower and an upper price laid over any tick rule, a band included.

mod over;

ghost use Rattle.std.specs.Prelude.{◌<◌};

/// The ticks of `rule`; the floor is the larger of its floor and `lower`, the ceiling the smaller
/// of its ceiling and `upper`. They may cross.
#[derive(Drop)]
pub struct DailyBand<R> {
    rule: R,
    lower: u32,
    upper: u32,
    ghost fits: { lower < 4294967296 },
}
