//! A ladder: rows of steps up to an end.

ghost use Rattle.std.specs.Prelude.{◌≡◌, true, is_ok};
ghost use Rattle.ticks.specs.Places.{Placed};
ghost use Rattle.ticks.specs.Rows.{start_of, row_at, ladder, load_check};

use crate::in_row::InRow;
use crate::place::Place;
use crate::row::Row;

// Rows in order, and where the last of them ends.
#[derive(Clone, Copy)]
pub(crate) struct Table<'a> {
    pub(crate) rows: &'a [Row],
    pub(crate) end: u32,
}

impl Table<'_> {
    // Where the first of the rows starts, and the end where there is none.
    pub(crate) fn start(&self) -> u32
        ensures { result ≡ start_of self.now.rows.now self.now.end }
    {
        self.rows.first().map_or(self.end, |row| row.start)
    }

    // The last of the rows, from the first on, that start at most at `p`.
    fn row_at(&self, p: u32) -> Option<Row>
        ensures { result ≡ row_at self.now.rows.now p }
    {
        self.rows
            .iter()
            .take_while(|row| row.start <= p)
            .last()
            .copied()
    }

    // Where `p` lies among the ticks of a table that can be loaded.
    pub(crate) fn place(&self, p: u32) -> Place
        requires { is_ok (load_check self.now.rows.now self.now.end) ≡ true }
        ensures { Placed (ladder self.now.rows.now self.now.end) (start_of self.now.rows.now self.now.end) self.now.end p result }
    {
        // no row has to be found from the end on
        if p >= self.end {
            return Place::Past {
                last: self.end,
                price: p,
            };
        }
        match self.row_at(p) {
            None => Place::Before {
                first: self.start(),
            },
            Some(row) => Place::Within(InRow { row, price: p }),
        }
    }
}
