// What it takes to keep entries in order: a key of each entry, and a strict total order of the keys.
ghost use Rattle.std.specs.Prelude.{◌≡◌, Bool, true, false};

// A way to rank entries of type E by their keys.
pub trait Ranking<E> {
    type Key;

    // the key of an entry
    ghost key_of: { Self → E → Self.Key };

    // whether the first key comes before the second
    ghost ahead: { Self → Self.Key → Self.Key → Bool };

    fn key(&self, entry: &E) -> Self::Key
        ensures { result ≡ key_of self.now entry.now };

    fn before(&self, first: &Self::Key, second: &Self::Key) -> bool
        ensures { result ≡ ahead self.now first.now second.now };

    ghost irreflexive: { (s : Self) (j : Self.Key) → ahead s j j ≡ false };

    ghost transitive: { (s : Self) (i j k : Self.Key) → ahead s i j ≡ true → ahead s j k ≡ true → ahead s i k ≡ true };

    ghost total: { (s : Self) (j k : Self.Key) → ahead s j k ≡ false → ahead s k j ≡ false → j ≡ k };
}

// A ranking that is lent ranks the same.
impl<E, R: Ranking<E>> Ranking<E> for &R {
    type Key = R::Key;

    ghost key_of = { λ r. R.Ranking.key_of r.now };

    ghost ahead = { λ r. R.Ranking.ahead r.now };

    fn key(&self, entry: &E) -> R::Key {
        (**self).key(entry)
    }

    fn before(&self, first: &R::Key, second: &R::Key) -> bool {
        (**self).before(first, second)
    }

    ghost irreflexive = { λ r. R.Ranking.irreflexive r.now };

    ghost transitive = { λ r. R.Ranking.transitive r.now };

    ghost total = { λ r. R.Ranking.total r.now };
}
