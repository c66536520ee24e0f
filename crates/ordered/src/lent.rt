// A list over lent rows.
ghost use Rattle.std.specs.Prelude.{◌≡◌, ◌+◌, ◌<◌, ◌≤◌, Bool, true, [], ◌∷◌, ◌++◌, length, take, slice_index_or, slice_set, find, position, insert, remove};
ghost use Rattle.std.specs.Fn.{ComputesKey};

use crate::rows::{find, position, remove_row};

/// Entries in lent rows: the first `len` rows hold them, and the rows past those are spare. Every row
/// that is spare after a change is as it was before. The rows are lent because the engine takes no
/// memory of its own.
#[derive(Drop)]
pub struct LentList<'a, E> {
    pub rows: &'a mut [E],
    pub len: usize,
    ghost fits: { len ≤ length rows.now },
}

impl<'a, E: Copy> LentList<'a, E> {
    ghost use Rattle.ordered.specs.Lent.{entries, size, RowsKept};
    ghost use Rattle.ordered.specs.Sorting.{Sorted};

    /// The list of what the first `len` rows hold; of 0 an empty one, whatever lies in the rows.
    pub fn new(rows: &'a mut [E], len: usize) -> LentList<'a, E>
        requires { len ≤ length rows.old }
        ensures entries { entries result ≡ take len rows.old }
        ensures rows { result.rows.now ≡ rows.old }
        ensures reference { result.rows.ghost_name ≡ rows.entry.ghost_name }
    {
        LentList { rows, len }
    }

    /// How many entries there are.
    pub fn len(&self) -> usize
        ensures { result ≡ length (entries self.now) }
    {
        self.as_slice().len()
    }

    /// The entries.
    pub fn as_slice(&self) -> &[E]
        ensures { result.now ≡ entries self.now }
    {
        &self.rows[..self.len]
    }

    /// The index of the first entry that passes the test.
    pub fn position<F: Fn(&E) -> bool>(&self, test: F) -> Option<usize>
        requires { F.IsAlwaysCallable test }
        ensures { (passes : E → Bool) → ComputesKey F.FnMut passes test → result ≡ position passes (entries self.now) }
    {
        position(self.rows, self.len, test)
    }

    /// The first entry that passes the test.
    pub fn find<F: Fn(&E) -> bool>(&self, test: F) -> Option<E>
        requires { F.IsAlwaysCallable test }
        ensures { (passes : E → Bool) → ComputesKey F.FnMut passes test → result ≡ find passes (entries self.now) }
    {
        find(self.rows, self.len, test)
    }

    /// The first entry.
    pub fn first(&self) -> Option<E>
        ensures { result ≡ find (λ _. true) (entries self.now) }
    {
        self.as_slice().first().copied()
    }

    /// Writes an entry over another.
    pub fn set(&mut self, at: usize, entry: E)
        requires { at < length (entries self.old) }
        ensures entries { entries self.new ≡ slice_set (entries self.old) at entry }
        ensures rows { RowsKept self.old self.new }
    {
        let held = &mut self.rows[..self.len];
        held[at] = entry;
    }

    /// Puts an entry behind the last.
    pub fn push(&mut self, entry: E)
        requires { length (entries self.old) < size self.old }
        ensures entries { entries self.new ≡ entries self.old ++ entry ∷ [] }
        ensures rows { RowsKept self.old self.new }
    {
        let end = self.len();
        self.insert(end, entry);
    }

    /// Puts an entry before the one at `at`, or behind the last.
    pub fn insert(&mut self, at: usize, entry: E)
        requires room { length (entries self.old) < size self.old }
        requires within { at ≤ length (entries self.old) }
        ensures entries { entries self.new ≡ insert (entries self.old) at entry }
        ensures rows { RowsKept self.old self.new }
    {
        self.rows.copy_within(at..self.len, at + 1);
        self.rows[at] = entry;
        self.len += 1;
    }

    /// Takes out the entry at `at`: those behind it move up, and the row that is set free keeps the
    /// entry that was the last.
    pub fn remove(&mut self, at: usize) -> E
        requires { at < length (entries self.old) }
        ensures value { (d : E) → result ≡ slice_index_or (entries self.old) at d }
        ensures entries { entries self.new ≡ remove (entries self.old) at }
        ensures sorted { (order : E → E → Bool) → Sorted order (entries self.old) → Sorted order (entries self.new) }
        ensures fewer { length (entries self.new) + 1 ≡ length (entries self.old) }
        ensures rows { RowsKept self.old self.new }
    {
        let entry = remove_row(self.rows, at, self.len);
        self.len -= 1;
        entry
    }
}
