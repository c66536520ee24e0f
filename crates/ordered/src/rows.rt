// The first `len` of some rows hold entries; the rows past them are spare.
ghost use Rattle.std.specs.Prelude.{◌≡◌, ◌-◌, ◌<◌, ◌≤◌, Bool, length, take, drop, slice_index_or, find, position, remove};
ghost use Rattle.std.specs.Fn.{ComputesKey};
ghost use Rattle.ordered.specs.Sorting.{Sorted};

/// The index of the first entry that passes the test.
pub fn position<E: Copy, F: Fn(&E) -> bool>(rows: &[E], len: usize, test: F) -> Option<usize>
    requires fits { len ≤ length rows.now }
    requires callable { F.IsAlwaysCallable test }
    ensures { (passes : E → Bool) → ComputesKey F.FnMut passes test → result ≡ position passes (take len rows.now) }
{
    for i in 0..len {
        if test(&rows[i]) {
            return Some(i);
        }
    }
    None
}

/// Takes the entry at `at` out: those behind it move up by one, and no other row is written, so that
/// the row that was the last one held keeps its entry.
pub fn remove_row<E: Copy>(rows: &mut [E], at: usize, len: usize) -> E
    requires { (at < len) × (len ≤ length rows.old) }
    ensures value { (d : E) → result ≡ slice_index_or rows.old at d }
    ensures held { take (len - 1) rows.new ≡ remove (take len rows.old) at }
    ensures sorted { (order : E → E → Bool) → Sorted order (take len rows.old) → Sorted order (take (len - 1) rows.new) }
    ensures past { drop (len - 1) rows.new ≡ drop (len - 1) rows.old }
{
    let entry = rows[at];
    close_at(rows, at, len);
    entry
}

// The first entry that passes the test.
pub(crate) fn find<E: Copy, F: Fn(&E) -> bool>(rows: &[E], len: usize, test: F) -> Option<E>
    requires fits { len ≤ length rows.now }
    requires callable { F.IsAlwaysCallable test }
    ensures { (passes : E → Bool) → ComputesKey F.FnMut passes test → result ≡ find passes (take len rows.now) }
{
    let at = position(rows, len, test)?;
    rows[..len].get(at).copied()
}

// Moves the entries behind `at` up by one.
fn close_at<E: Copy>(rows: &mut [E], at: usize, len: usize)
    requires { (at < len) × (len ≤ length rows.old) }
    ensures held { take (len - 1) rows.new ≡ remove (take len rows.old) at }
    ensures sorted { (order : E → E → Bool) → Sorted order (take len rows.old) → Sorted order (take (len - 1) rows.new) }
    ensures past { drop (len - 1) rows.new ≡ drop (len - 1) rows.old }
{
    rows.copy_within(at + 1..len, at);
}
