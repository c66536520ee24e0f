//! A fresh banded rule, and how it is loaded.

ghost use Rattle.std.specs.Prelude.{◌≡◌, ◌≤◌, [], ◌∷◌, length, take, MatchResult};
ghost use Rattle.ticks.specs.Rows.{ladder, start_of, load_check};
ghost use Rattle.ticks.specs.BandedRules.{banded_ticks, banded_floor, banded_ceiling};

use crate::banded::fault::BandedFault;
use crate::banded::table::{Banded, MAX_ROWS};
use crate::ladder::Table;
use crate::row::{FIRST_ROW, Row};

// Sixteen rows that begin with `rows`.
fn held(rows: &[Row]) -> [Row; MAX_ROWS]
    requires { length rows.now ≤ 16 }
    ensures { take (length rows.now) result ≡ rows.now }
{
    let mut all = [FIRST_ROW; MAX_ROWS];
    all[..rows.len()].copy_from_slice(rows);
    all
}

impl Banded {
    /// A fresh rule: its single tick is 1.
    pub fn new() -> Banded
        ensures ticks { banded_ticks result ≡ 1 ∷ [] }
        ensures floor { banded_floor result ≡ 1 }
        ensures ceiling { banded_ceiling result ≡ 1 }
    {
        Banded {
            rows: [FIRST_ROW; MAX_ROWS],
            used: 1,
            end: 1,
        }
    }

    /// Takes the table of `rows` and `end` in place of the old one; a refused load leaves the rule
    /// exactly as it was.
    pub fn load(&mut self, rows: &[Row], end: u32) -> Result<(), BandedFault>
        ensures check { result ≡ load_check rows.now end }
        ensures meaning { MatchResult result (λ _. (banded_ticks self.new ≡ ladder rows.now end) × (banded_floor self.new ≡ start_of rows.now end) × (banded_ceiling self.new ≡ end)) (λ _. self.new ≡ self.old) }
    {
        Table { rows, end }.check()?;
        *self = Banded {
            rows: held(rows),
            used: rows.len(),
            end,
        };
        Ok(())
    }
}
