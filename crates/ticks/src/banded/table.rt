//! What a banded rule holds.

ghost use Rattle.std.specs.Prelude.{◌≡◌, ◌≤◌, true, take, is_ok};
ghost use Rattle.ticks.specs.Rows.{load_check};

use crate::row::Row;

/// The most rows that a table may have.
pub const MAX_ROWS: usize = 16;

/// A tick table of 1 to 16 rows and an end; floor and ceiling are the first and the last tick.
#[derive(Clone, Copy)]
pub struct Banded {
    // the first `used` of them count; a list type would not be `Copy`
    pub(crate) rows: [Row; MAX_ROWS],
    pub(crate) used: usize,
    pub(crate) end: u32,
    ghost within: { used ≤ 16 },
    ghost sound: { is_ok (load_check (take used rows) end) ≡ true },
}
