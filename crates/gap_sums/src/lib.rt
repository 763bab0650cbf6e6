// The sums of a guess: of two subtrees, the sizes of the gaps of their cells from the values expected, added up. They
// are kept for each two subtrees; after a merge those of the newest subtree alone are worked anew. For the crates of
// the guess.
#![tactic(auto)]

ghost use Rattle.std.specs.Prelude.{◌≡◌, ◌≢◌, List, ℕ, ◌+◌, ◌-◌, ◌*◌, ◌<◌, ◌≤◌, eqb, length, get_or, set, replicate};
ghost use Rattle.base.specs.Numbers.{indicator, sum_below, distance};
ghost use Rattle.base.specs.Lists.{filled};
ghost use Rattle.limits.specs.Limits.{most_leaves, most_pairs};
ghost use Rattle.trees.specs.Tables.{cell, IsTable};
ghost use Rattle.state_arrays.specs.inner.Fits.{largest_sum, SmallSums};
ghost use Rattle.gap_sums.specs.inner.PairPlaces.{pair_place, place_of};
ghost use Rattle.gap_sums.specs.inner.GapSums.{largest_gap, most_leaf_gaps, most_gaps, due_at, gap_in};
ghost use Rattle.gap_sums.specs.inner.GapSums.{leaf_gaps, subtree_gaps, SmallDues, SmallColumns};
ghost use Rattle.gap_sums.specs.inner.GapSums.{ColumnsFound, SmallGaps, SumsFit, Stored};
ghost use Rattle.gap_sums.specs.inner.GapSums.{RowStarted, Started};

use eligible_pairs::row_of;
use limits::{LEAF_COUNTS, MOST_LEAVES, MOST_PAIRS};
use numbers::apart;
use state_arrays::Arrays;

// The gaps of a row are added to what is kept of each column: `due` is expected there, and the m of the row's leaf.
fn add_row(
    n: usize,
    row: &[u32],
    due: &[u32; MOST_LEAVES],
    m: u32,
    columns: &mut [u64; MOST_LEAVES],
)
    requires { (n ≤ most_leaves) × (n ≤ length row.now) × SmallDues n due.now × (m ≤ largest_sum)
        × SmallColumns n columns.old }
    ensures { columns.new
        ≡ filled n (λ y. get_or columns.old y 0
        + distance (get_or row.now y 0) (get_or due.now y 0 + m)) columns.old }
{
    for y in 0..n {
        columns[y] += apart(row[y], due[y] + m) as u64;
    }
}

// Row x is added if the leaf x is in the subtree `a`.
fn add_row_of(
    n: usize,
    table: &[u32],
    arrays: &Arrays,
    a: u32,
    due: &[u32; MOST_LEAVES],
    x: usize,
    columns: &mut [u64; MOST_LEAVES],
)
    requires { (n ≤ most_leaves) × (length table.now ≡ n * n) × SmallSums n arrays.now.m × SmallDues n due.now
        × (x < n) × SmallColumns n columns.old }
    ensures { (length columns.new ≡ most_leaves)
        × ((y : ℕ) → y < n → get_or columns.new y 0
        ≡ get_or columns.old y 0
        + gap_in n table.now arrays.now.label arrays.now.m a (get_or due.now y 0) y x) }
{
    if arrays.label[x] == a {
        add_row(n, row_of(n, table, x), due, arrays.m[x], columns);
    }
}

// The columns of all leaves, by the rows of the subtree `a`.
fn add_rows(
    n: usize,
    table: &[u32],
    arrays: &Arrays,
    a: u32,
    due: &[u32; MOST_LEAVES],
    columns: &mut [u64; MOST_LEAVES],
)
    requires { (n ≤ most_leaves) × (length table.now ≡ n * n) × SmallSums n arrays.now.m × SmallDues n due.now
        × (length columns.old ≡ most_leaves) × ((y : ℕ) → y < n → get_or columns.old y 0 ≡ 0) }
    ensures { ColumnsFound n table.now arrays.now.label arrays.now.m a due.now columns.new }
{
    for x in 0..n {
        add_row_of(n, table, arrays, a, due, x, columns);
    }
}

// The size of the gap of a cell, if its leaf is in the subtree `a`; else 0.
fn gap_of(label: u32, a: u32, cell: u32, expected: u32) -> u32
    ensures { (result ≡ indicator (eqb label a) (distance cell expected)) × (result ≤ largest_gap) }
{
    if label == a { apart(cell, expected) } else { 0 }
}

// The gaps of the leaves of the subtree `a` in a row, added up: `due` is expected there, and their m. Their lower and
// their upper 16 bits are added up apart, in 32 bits: so the processor takes four cells at a time.
fn row_gaps(n: usize, row: &[u32], arrays: &Arrays, a: u32, due: u32) -> u64
    requires { (n ≤ most_leaves) × (n ≤ length row.now) × SmallSums n arrays.now.m × (due ≤ 2 * largest_sum) }
    ensures { (result ≡ sum_below n (λ x. indicator (eqb (get_or arrays.now.label x 0) a)
        (distance (get_or row.now x 0) (due + get_or arrays.now.m x 0)))) × (result ≤ most_leaf_gaps) }
{
    let mut low: u32 = 0;
    let mut high: u32 = 0;
    for x in 0..n {
        let gap = gap_of(arrays.label[x], a, row[x], due + arrays.m[x]);
        low += gap % 65536;
        high += gap / 65536;
    }
    (low as u64) + 65536 * (high as u64)
}

// The column of leaf y, if it is outside of the subtree `a`, by its own row: the halves of the table are equal.
fn column_of(n: usize, table: &[u32], arrays: &Arrays, a: u32, due: u32, y: usize) -> u64
    requires { (n ≤ most_leaves) × IsTable n table.now × SmallSums n arrays.now.m × (due ≤ 2 * largest_sum) × (y < n) }
    ensures { (get_or arrays.now.label y 0 ≢ a
        → result ≡ leaf_gaps n table.now arrays.now.label arrays.now.m a due y)
        × (result ≤ most_leaf_gaps) }
{
    if arrays.label[y] == a {
        0
    } else {
        row_gaps(n, row_of(n, table, y), arrays, a, due)
    }
}

// The columns of the leaves outside of the subtree `a`, each by its own row.
fn fill_outside(
    n: usize,
    table: &[u32],
    arrays: &Arrays,
    a: u32,
    due: &[u32; MOST_LEAVES],
    columns: &mut [u64; MOST_LEAVES],
)
    requires { (n ≤ most_leaves) × IsTable n table.now × SmallSums n arrays.now.m × SmallDues n due.now
        × (length columns.old ≡ most_leaves) }
    ensures { ColumnsFound n table.now arrays.now.label arrays.now.m a due.now columns.new }
{
    for y in 0..n {
        columns[y] = column_of(n, table, arrays, a, due[y], y);
    }
}

// The columns of the leaves outside of the subtree `a`, which has `size` leaves: by its rows or by theirs, whichever
// are fewer.
fn find_columns(
    n: usize,
    table: &[u32],
    arrays: &Arrays,
    a: u32,
    size: usize,
    due: &[u32; MOST_LEAVES],
    columns: &mut [u64; MOST_LEAVES],
)
    requires { (n ≤ most_leaves) × IsTable n table.now × SmallSums n arrays.now.m × SmallDues n due.now
        × (length columns.old ≡ most_leaves) × ((y : ℕ) → y < n → get_or columns.old y 0 ≡ 0) }
    ensures { ColumnsFound n table.now arrays.now.label arrays.now.m a due.now columns.new }
{
    if size <= n / 2 {
        add_rows(n, table, arrays, a, due, columns);
    } else {
        fill_outside(n, table, arrays, a, due, columns);
    }
}

// What is expected of a cell of a leaf of the subtree `b`, with this m, and a leaf of the subtree `a`, but for the m of
// that; 0 where they are one.
fn due_of(
    n: usize,
    b: usize,
    m: u32,
    sizes: &[usize; MOST_LEAVES],
    p: &[u32; LEAF_COUNTS],
    a: usize,
) -> u32
    requires { (n ≤ most_leaves) × (a < n) × (b < n) × (m ≤ largest_sum) × SmallSums (n + 1) p.now
        × (b ≢ a → get_or sizes.now a 0 + get_or sizes.now b 0 ≤ n) }
    ensures { (b ≡ a → result ≡ 0)
        × (b ≢ a → result ≡ get_or p.now (n - (get_or sizes.now a 0
        + get_or sizes.now b 0)) 0 + m) × (result ≤ 2 * largest_sum) }
{
    if b == a {
        0
    } else {
        p[n - (sizes[a] + sizes[b])] + m
    }
}

// The same of every leaf.
fn fill_due(
    n: usize,
    arrays: &Arrays,
    p: &[u32; LEAF_COUNTS],
    a: usize,
    due: &mut [u32; MOST_LEAVES],
)
    requires { SumsFit n arrays.now.label arrays.now.m arrays.now.sizes p.now a × (length due.old ≡ most_leaves) }
    ensures { due.new
        ≡ filled n (due_at n arrays.now.label arrays.now.m arrays.now.sizes p.now a)
        due.old }
{
    for y in 0..n {
        due[y] = due_of(
            n,
            arrays.label[y] as usize,
            arrays.m[y],
            &arrays.sizes,
            p,
            a,
        );
    }
}

// The columns of each subtree, added up: they are kept at its label.
fn add_columns(
    n: usize,
    label: &[u32; MOST_LEAVES],
    columns: &[u64; MOST_LEAVES],
    sums: &mut [u64; MOST_LEAVES],
)
    requires { (n ≤ most_leaves) × ((y : ℕ) → y < n → get_or label.now y 0 < n) × SmallColumns n columns.now
        × (sums.old ≡ replicate most_leaves 0) }
    ensures { (k : ℕ) → k < n → get_or sums.new k 0
        ≡ sum_below n (λ y. indicator (eqb (get_or label.now y 0) k) (get_or columns.now y 0)) }
{
    for y in 0..n {
        let b = label[y] as usize;
        sums[b] += columns[y];
    }
}

// Where the sum of the subtrees labelled i < j is kept. For the crates above.
pub fn pair_place(i: usize, j: usize) -> usize
    requires { (i < j) × (j < most_leaves) }
    ensures { (result ≡ pair_place i j) × (result < most_pairs) }
{
    j * (j - 1) / 2 + i
}

// The sum of the subtrees labelled `a` and `k`, if they are two, becomes v.
fn store_one(n: usize, a: usize, k: usize, v: u64, sums: &mut [u64; MOST_PAIRS])
    requires { (n ≤ most_leaves) × (a < n) × (k < n) × (length sums.old ≡ most_pairs) }
    ensures { (k ≡ a → sums.new ≡ sums.old)
        × (k ≢ a → sums.new ≡ set sums.old (place_of a k) v) }
{
    if k < a {
        sums[pair_place(k, a)] = v;
    } else if a < k {
        sums[pair_place(a, k)] = v;
    }
}

// The sums of the subtree `a` and each other become those given.
fn store(n: usize, a: usize, new: &[u64; MOST_LEAVES], sums: &mut [u64; MOST_PAIRS])
    requires { (n ≤ most_leaves) × (a < n) × SmallGaps n sums.old
        × ((k : ℕ) → k < n → get_or new.now k 0 ≤ most_gaps) }
    ensures { Stored n a n (λ k. get_or new.now k 0) sums.old sums.new }
{
    for k in 0..n {
        store_one(n, a, k, new[k], sums);
    }
}

// The sums of the subtree `a`, the newest, are worked anew. For the crates above.
pub fn renew(
    n: usize,
    table: &[u32],
    arrays: &Arrays,
    p: &[u32; LEAF_COUNTS],
    a: usize,
    sums: &mut [u64; MOST_PAIRS],
)
    requires { IsTable n table.now × SumsFit n arrays.now.label arrays.now.m arrays.now.sizes p.now a
        × SmallGaps n sums.old }
    ensures { Stored n a n (subtree_gaps n table.now arrays.now.label arrays.now.m
        arrays.now.sizes p.now a) sums.old sums.new }
{
    let mut due = [0u32; MOST_LEAVES];
    let mut columns = [0u64; MOST_LEAVES];
    let mut new = [0u64; MOST_LEAVES];
    let size = arrays.sizes[a];
    fill_due(n, arrays, p, a, &mut due);
    find_columns(n, table, arrays, a as u32, size, &due, &mut columns);
    add_columns(n, &arrays.label, &columns, &mut new);
    store(n, a, &new, sums);
}

// The sums of leaf j and each leaf before it, while all are single: e is expected of every cell.
fn start_row(row: &[u32], e: u32, j: usize, sums: &mut [u64; MOST_PAIRS])
    requires { (j < most_leaves) × (j ≤ length row.now) × (length sums.old ≡ most_pairs) }
    ensures { RowStarted row.now e j j sums.old sums.new }
{
    for i in 0..j {
        sums[pair_place(i, j)] = apart(row[i], e) as u64;
    }
}

// The sums of all leaves, while they are single. For the crates above.
pub fn start(n: usize, table: &[u32], e: u32, sums: &mut [u64; MOST_PAIRS])
    requires { (n ≤ most_leaves) × (length table.now ≡ n * n) × (length sums.old ≡ most_pairs) }
    ensures { Started n table.now e n sums.new }
{
    for j in 0..n {
        start_row(row_of(n, table, j), e, j, sums);
    }
}
