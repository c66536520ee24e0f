// One ordered list for every kind of entry whose keys are totally ordered.
ghost use Rattle.std.specs.Prelude.{◌≡◌, ℕ, ◌+◌, ◌<◌, ◌≤◌, Bool, true, false, not, [], ◌≢◌, length, slice_index_or, find, position, remove};
ghost use Rattle.std.specs.Fn.{ComputesKey};
ghost use Rattle.std.specs.List.{AllByRecursion};
ghost use Rattle.ordered.specs.Lent.{entries};
ghost use Rattle.ordered.specs.Sorting.{ranked, insert_by, in_order, Sorted};

use crate::lent::LentList;
use crate::ranking::Ranking;

/// Entries in lent rows in the order of a ranking: none is ahead of one before it.
#[derive(Drop)]
pub struct OrderedList<'a, E, R: Ranking<E>> {
    pub list: LentList<'a, E>,
    pub ranking: R,
    ghost ordered: { in_order (ranked (R.Ranking.ahead ranking) (R.Ranking.key_of ranking)) (entries list) ≡ true },
}

impl<'a, E: Copy, R: Ranking<E>> OrderedList<'a, E, R> {
    ghost use Rattle.ordered.specs.Meaning.{held, lent};
    ghost use Rattle.ordered.specs.Lent.{size, RowsKept};

    /// A list whose entries are in the order of the ranking, as those of an empty one are.
    pub fn new(list: LentList<'a, E>, ranking: R) -> OrderedList<'a, E, R>
        requires { in_order (ranked (R.Ranking.ahead ranking) (R.Ranking.key_of ranking)) (entries list) ≡ true }
        ensures list { lent result ≡ list.entry }
        ensures ranking { result.ranking ≡ ranking }
    {
        OrderedList { list, ranking }
    }

    /// The entries, in order.
    pub fn as_slice(&self) -> &[E]
        ensures { result.now ≡ held self.now }
    {
        self.list.as_slice()
    }

    /// Puts an entry in its place, behind those of its own key.
    pub fn insert(&mut self, entry: E)
    where
        R::Key: Drop,
        requires { length (held self.old) < size (lent self.old) }
        ensures held { held self.new ≡ insert_by (ranked (R.Ranking.ahead self.old.ranking) (R.Ranking.key_of self.old.ranking)) entry (held self.old) }
        ensures sorted { AllByRecursion (λ x. R.Ranking.key_of self.old.ranking x ≢ R.Ranking.key_of self.old.ranking entry) (held self.old) → Sorted (ranked (R.Ranking.ahead self.old.ranking) (R.Ranking.key_of self.old.ranking)) (held self.old) → Sorted (ranked (R.Ranking.ahead self.old.ranking) (R.Ranking.key_of self.old.ranking)) (held self.new) }
        ensures more { length (held self.new) ≡ length (held self.old) + 1 }
        ensures ranking { self.new.ranking ≡ self.old.ranking }
        ensures rows { RowsKept (lent self.old) (lent self.new) }
    {
        let at = self.place(&self.ranking.key(&entry));
        self.list.insert(at, entry);
    }

    /// Takes out the entry at `at`; what was in order stays so.
    pub fn remove(&mut self, at: usize) -> E
        requires { at < length (held self.old) }
        ensures value { (d : E) → result ≡ slice_index_or (held self.old) at d }
        ensures held { held self.new ≡ remove (held self.old) at }
        ensures sorted { (order : E → E → Bool) → Sorted order (held self.old) → Sorted order (held self.new) }
        ensures fewer { length (held self.new) + 1 ≡ length (held self.old) }
        ensures ranking { self.new.ranking ≡ self.old.ranking }
        ensures rows { RowsKept (lent self.old) (lent self.new) }
    {
        self.list.remove(at)
    }

    /// The index of the first entry that passes the test.
    pub fn position<F: Fn(&E) -> bool>(&self, test: F) -> Option<usize>
        requires { F.IsAlwaysCallable test }
        ensures { (passes : E → Bool) → ComputesKey F.FnMut passes test → result ≡ position passes (held self.now) }
    {
        self.list.position(test)
    }

    /// The first entry that passes the test.
    pub fn find<F: Fn(&E) -> bool>(&self, test: F) -> Option<E>
        requires { F.IsAlwaysCallable test }
        ensures { (passes : E → Bool) → ComputesKey F.FnMut passes test → result ≡ find passes (held self.now) }
    {
        self.list.find(test)
    }

    /// The first entry.
    pub fn first(&self) -> Option<E>
        ensures { result ≡ find (λ _. true) (held self.now) }
    {
        self.list.first()
    }

    /// The first entry that the key comes before: by halving.
    pub fn first_behind(&self, key: &R::Key) -> Option<E>
    where
        R::Key: Drop,
        ensures { result ≡ find (λ x. R.Ranking.ahead self.now.ranking key.now (R.Ranking.key_of self.now.ranking x)) (held self.now) }
    {
        self.as_slice().get(self.place(key)).copied()
    }

    // The index of the first entry that the key comes before, or the length.
    fn place(&self, key: &R::Key) -> usize
    where
        R::Key: Drop,
        ensures within { result ≤ length (held self.now) }
        ensures past { (k : ℕ) (d : E) → k < result → R.Ranking.ahead self.now.ranking key.now (R.Ranking.key_of self.now.ranking (slice_index_or (held self.now) k d)) ≡ false }
        ensures here { (d : E) → result < length (held self.now) → R.Ranking.ahead self.now.ranking key.now (R.Ranking.key_of self.now.ranking (slice_index_or (held self.now) result d)) ≡ true }
    {
        let ranking = &self.ranking;
        self.as_slice()
            .partition_point(|entry| !ranking.before(key, &ranking.key(entry)))
    }
}
