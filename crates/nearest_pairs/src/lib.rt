// The search for the pair of subtrees that a guess merges next. Each label keeps its partner: of the labels after it,
// that with which its mean is smallest. A merge changes few of them. For the crates of the guess.
#![tactic(auto)]

ghost use Rattle.std.specs.Prelude.{◌≡◌, ◌≢◌, true, false, ℕ, ◌+◌, ◌<◌, ◌≤◌, length, get_or};
ghost use Rattle.limits.specs.Limits.{most_leaves};
ghost use Rattle.nearest_pairs.specs.inner.Nearest.{taken_before, TwoLabels, SearchFits, Rows, RowTo, Partner};
ghost use Rattle.nearest_pairs.specs.inner.Nearest.{Partners, Chosen, Outdated, kept_pair, SmallPair, Smaller};
ghost use Rattle.nearest_pairs.specs.inner.Nearest.{Best};

use gap_sums::pair_place;
use limits::{MOST_LEAVES, MOST_PAIRS};
use state_arrays::Arrays;

// Two labels, the smaller first, with the sum of their cells' gaps and the number of their cells.
#[derive(Clone, Copy)]
pub struct Pair {
    pub first: usize,
    pub second: usize,
    pub sum: u64,
    pub cells: u64,
}

// The pair of the labels i < j.
fn pair_of(arrays: &Arrays, sums: &[u64; MOST_PAIRS], i: usize, j: usize) -> Pair
    requires { (i < j) × (j < most_leaves) × (get_or arrays.now.sizes i 0 ≤ most_leaves)
        × (get_or arrays.now.sizes j 0 ≤ most_leaves) }
    ensures { result ≡ kept_pair arrays.now.sizes sums.now i j }
{
    Pair {
        first: i,
        second: j,
        sum: sums[pair_place(i, j)],
        cells: (arrays.sizes[i] * arrays.sizes[j]) as u64,
    }
}

// Of two pairs, `next` if its mean is smaller, else `best`: means are compared by cross products.
fn smaller(best: Pair, next: Pair) -> Pair
    requires { SmallPair best × SmallPair next }
    ensures { Smaller best next result }
{
    if next.sum * best.cells < best.sum * next.cells {
        next
    } else {
        best
    }
}

// The pair of i that is taken first once j is looked at.
fn nearer(
    n: usize,
    arrays: &Arrays,
    sums: &[u64; MOST_PAIRS],
    i: usize,
    best: Pair,
    j: usize,
) -> Pair
    requires { SearchFits n arrays.now.label arrays.now.sizes sums.now × (get_or arrays.now.label i 0 ≡ i)
        × (i < j) × (j < n) × Best n arrays.now.label arrays.now.sizes sums.now (RowTo i j) best }
    ensures { Best n arrays.now.label arrays.now.sizes sums.now (RowTo i (j + 1)) result }
{
    if arrays.label[j] as usize == j {
        smaller(best, pair_of(arrays, sums, i, j))
    } else {
        best
    }
}

// The partner of the label i; n where there is none.
fn find_partner(n: usize, arrays: &Arrays, sums: &[u64; MOST_PAIRS], i: usize) -> usize
    requires { SearchFits n arrays.now.label arrays.now.sizes sums.now × (i < n)
        × (get_or arrays.now.label i 0 ≡ i) }
    ensures { Partner n arrays.now.label arrays.now.sizes sums.now i result }
{
    // Not an Option: the pair that is none has the mean 1 / 0, which is more than any, and so needs no test of its own.
    let mut best = Pair {
        first: i,
        second: n,
        sum: 1,
        cells: 0,
    };
    for j in i + 1..n {
        best = nearer(n, arrays, sums, i, best, j);
    }
    best.second
}

// The partner of every label. For the crates above.
pub fn find_partners(
    n: usize,
    arrays: &Arrays,
    sums: &[u64; MOST_PAIRS],
    partners: &mut [usize; MOST_LEAVES],
)
    requires { SearchFits n arrays.now.label arrays.now.sizes sums.now × (length partners.old ≡ most_leaves)
        × ((k : ℕ) → k < n → get_or arrays.now.label k 0 ≡ k) }
    ensures { (length partners.new ≡ most_leaves)
        × Partners n arrays.now.label arrays.now.sizes sums.now partners.new }
{
    for i in 0..n {
        partners[i] = find_partner(n, arrays, sums, i);
    }
}

// The pair that is taken first once those of i are looked at, which are none where i is no label.
fn better(
    n: usize,
    arrays: &Arrays,
    sums: &[u64; MOST_PAIRS],
    partners: &[usize; MOST_LEAVES],
    best: Pair,
    i: usize,
) -> Pair
    requires { SearchFits n arrays.now.label arrays.now.sizes sums.now
        × Partners n arrays.now.label arrays.now.sizes sums.now partners.now × (i < n)
        × Best n arrays.now.label arrays.now.sizes sums.now (Rows i) best }
    ensures { Best n arrays.now.label arrays.now.sizes sums.now (Rows (i + 1)) result }
{
    let j = partners[i];
    if arrays.label[i] as usize != i || j == n {
        return best;
    }
    smaller(best, pair_of(arrays, sums, i, j))
}

// The pair of labels that is taken first. For the crates above.
pub fn choose(
    n: usize,
    arrays: &Arrays,
    sums: &[u64; MOST_PAIRS],
    partners: &[usize; MOST_LEAVES],
) -> Pair
    requires { SearchFits n arrays.now.label arrays.now.sizes sums.now
        × Partners n arrays.now.label arrays.now.sizes sums.now partners.now }
    ensures { Chosen n arrays.now.label arrays.now.sizes sums.now result.first result.second }
{
    // Not an Option, as in `find_partner`.
    let mut best = Pair {
        first: 0,
        second: n,
        sum: 1,
        cells: 0,
    };
    for i in 0..n {
        best = better(n, arrays, sums, partners, best, i);
    }
    best
}

// The one of the labels j < k whose pair with i is taken first.
fn nearer_of_two(
    n: usize,
    arrays: &Arrays,
    sums: &[u64; MOST_PAIRS],
    i: usize,
    j: usize,
    k: usize,
) -> usize
    requires { SearchFits n arrays.now.label arrays.now.sizes sums.now × TwoLabels n arrays.now.label i j
        × TwoLabels n arrays.now.label i k × (j < k) }
    ensures { (taken_before arrays.now.sizes sums.now (i, k) (i, j) ≡ true → result ≡ k)
        × (taken_before arrays.now.sizes sums.now (i, k) (i, j) ≡ false → result ≡ j) }
{
    smaller(pair_of(arrays, sums, i, j), pair_of(arrays, sums, i, k)).second
}

// Whether the partner of i is looked for anew after the subtree `b` became a part of `a`: where i is `a`, and where the
// partner was one of the two.
fn is_stale(a: usize, b: usize, i: usize, old: usize) -> bool
    ensures { result ≡ false → (i ≢ a) × (old ≢ a) × (old ≢ b) }
{
    i == a || old == a || old == b
}

// The partner of the label i after that merge: where it is not looked for anew, it stays if i comes after `a`; before
// that the new pair with `a` may be taken first.
fn renewed(
    n: usize,
    arrays: &Arrays,
    sums: &[u64; MOST_PAIRS],
    a: usize,
    b: usize,
    i: usize,
    old: usize,
) -> usize
    requires { SearchFits n arrays.now.label arrays.now.sizes sums.now × (a < n) × (get_or arrays.now.label a 0 ≡ a)
        × (i < n) × (get_or arrays.now.label i 0 ≡ i)
        × Outdated n arrays.now.label arrays.now.sizes sums.now a b i old }
    ensures { Partner n arrays.now.label arrays.now.sizes sums.now i result }
{
    if is_stale(a, b, i, old) {
        return find_partner(n, arrays, sums, i);
    }
    if a < i {
        return old;
    }
    if old < a {
        return nearer_of_two(n, arrays, sums, i, old, a);
    }
    nearer_of_two(n, arrays, sums, i, a, old)
}

// The partners of all labels after the subtree `b` became a part of `a`: those of the labels after `b` stay. For the
// crates above.
pub fn renew_partners(
    n: usize,
    arrays: &Arrays,
    sums: &[u64; MOST_PAIRS],
    a: usize,
    b: usize,
    partners: &mut [usize; MOST_LEAVES],
)
    requires { SearchFits n arrays.now.label arrays.now.sizes sums.now × (a < b) × (b < n)
        × (get_or arrays.now.label a 0 ≡ a) × (length partners.old ≡ most_leaves)
        × ((i : ℕ) → i < n → get_or arrays.now.label i 0 ≡ i
        → Outdated n arrays.now.label arrays.now.sizes sums.now a b i (get_or partners.old i 0)) }
    ensures { (length partners.new ≡ most_leaves)
        × Partners n arrays.now.label arrays.now.sizes sums.now partners.new }
{
    for i in 0..b {
        if arrays.label[i] as usize == i {
            partners[i] = renewed(n, arrays, sums, a, b, i, partners[i]);
        }
    }
}
