//! The conditions of a banded load, in order.

ghost use Rattle.std.specs.Prelude.{◌≡◌, ◌+◌, ◌≤◌, length, OnOk, MatchResult, Ok, Err};
ghost use Rattle.ticks.specs.Rows.{ladder, rows_check, distances_check, load_check, Ordered};

use crate::banded::fault::BandedFault;
use crate::banded::table::MAX_ROWS;
use crate::ladder::Table;
use crate::row::Row;
use crate::rule::MAX_TICKS;
use market::limits::MAX_PRICE;

// Starts rise strictly from at least 1, and steps are at least 1.
fn check_rows(rows: &[Row]) -> Result<(), BandedFault>
    ensures { result ≡ rows_check 0 0 rows.now }
{
    let mut low = 0;
    // the row's place is part of the fault
    for (i, row) in rows.iter().enumerate() {
        if row.start <= low {
            return Err(BandedFault::StartNotRising(i));
        }
        if row.step < 1 {
            return Err(BandedFault::StepIsZero(i));
        }
        low = row.start;
    }
    Ok(())
}

impl Table<'_> {
    // The steps of the ladder from its first tick to its last, where the distance from each start to
    // the next, or from the last to the end, is a multiple of the step.
    fn count_steps(&self) -> Result<u32, BandedFault>
        requires { Ordered self.now.rows.now self.now.end }
        ensures { MatchResult result (λ n. (distances_check 0 self.now.rows.now self.now.end ≡ Ok tt) × (n + 1 ≡ length (ladder self.now.rows.now self.now.end))) (λ fault. distances_check 0 self.now.rows.now self.now.end ≡ Err fault) }
    {
        let Table { rows, end } = *self;
        let mut n = 0;
        // the row's place is part of the fault
        for (i, row) in rows.iter().enumerate() {
            let rest = Table {
                rows: &rows[i + 1..],
                end,
            };
            let distance = rest.start() - row.start;
            if distance % row.step > 0 {
                return Err(BandedFault::UnevenDistance(i));
            }
            n += distance / row.step;
        }
        Ok(n)
    }

    // The first condition that the rows and the end break, if any is broken.
    pub(crate) fn check(&self) -> Result<(), BandedFault>
        ensures first { result ≡ load_check self.now.rows.now self.now.end }
        ensures few { OnOk result (length self.now.rows.now ≤ 16) }
    {
        let last = self.rows.last().ok_or(BandedFault::NoRows)?;
        if self.rows.len() > MAX_ROWS {
            return Err(BandedFault::TooManyRows);
        }
        check_rows(self.rows)?;
        if self.end < last.start {
            return Err(BandedFault::EndBelowStart);
        }
        if self.end > MAX_PRICE {
            return Err(BandedFault::EndTooHigh);
        }
        if self.count_steps()? >= MAX_TICKS {
            return Err(BandedFault::TooManyTicks);
        }
        Ok(())
    }
}
