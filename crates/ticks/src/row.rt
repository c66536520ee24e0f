//! A row of a table.

/// One row of a banded tick table: ticks go from `start` in steps of `step`.
#[derive(Clone, Copy, PartialEq, Eq, Debug)]
pub struct Row {
    pub start: u32,
    pub step: u32,
}

// The row of a fresh rule.
pub(crate) const FIRST_ROW: Row = Row { start: 1, step: 1 };
