// Whether two subtrees may be merged: each pair of a leaf of one and a leaf of the other has the cell that is expected.
// And the tables that are lent for it: as cells, or in bytes. For the crates of the rebuilds.
#![tactic(auto)]

ghost use Rattle.std.specs.Prelude.{◌≡◌, ◌↔◌, true, List, ℕ, ◌*◌, ◌<◌, ◌≤◌, eqb, length, get_or};
ghost use Rattle.base.specs.Numbers.{indicator, count_below};
ghost use Rattle.limits.specs.Limits.{most_leaves};
ghost use Rattle.trees.specs.Tables.{cell};
ghost use Rattle.eligible_pairs.specs.inner.Lent.{table_in};
ghost use Rattle.eligible_pairs.specs.inner.Mismatches.{mismatch, mismatch_in, mismatch_at};
ghost use Rattle.state_arrays.specs.inner.Fits.{largest_sum, SmallSums, BlockFits, SubtreesFit, TwoLabels};

use limits::{LEAF_COUNTS, MOST_LEAVES};
use state_arrays::Arrays;

// Whether a cell has the value expected. Every test of a cell is this one.
pub fn as_expected(cell: u32, expected: u32) -> bool
    ensures { result ≡ eqb cell expected }
{
    cell == expected
}

// 1 where a leaf of the subtree `b` has a cell other than the one expected, else 0.
fn wrong(label: u32, b: u32, cell: u32, expected: u32) -> u32
    ensures { result ≡ indicator (mismatch label b cell expected) 1 }
{
    u32::from(label == b && !as_expected(cell, expected))
}

// How many leaves of the subtree `b` have a wrong cell in a row of cells: e is expected of each, and the m of its leaf.
fn cells_wrong(n: usize, row: &[u32], arrays: &Arrays, b: u32, e: u32) -> u32
    requires { (n ≤ most_leaves) × (n ≤ length row.now) × SmallSums n arrays.now.m × (e ≤ 2 * largest_sum) }
    ensures { result ≡ count_below n (mismatch_in row.now arrays.now.label arrays.now.m b e) }
{
    let mut bad: u32 = 0;
    for y in 0..n {
        bad += wrong(arrays.label[y], b, row[y], e + arrays.m[y]);
    }
    bad
}

// A table that is lent to a rebuild.
pub trait Table {
    // the cells that it means, of n leaves
    ghost cells: { Self → ℕ → List ℕ };

    // Cell (i, j).
    fn cell(&self, n: usize, i: usize, j: usize) -> u32
        requires { (n ≤ most_leaves) × (length (cells self.now n) ≡ n * n) × (i < n) × (j < n) }
        ensures { result ≡ cell n (cells self.now n) i j };

    // How many leaves of the subtree `b` have a wrong cell in row x.
    fn row_wrong(&self, n: usize, arrays: &Arrays, x: usize, b: u32, e: u32) -> u32
        requires { (n ≤ most_leaves) × (length (cells self.now n) ≡ n * n) × SmallSums n arrays.now.m
            × (x < n) × (e ≤ 2 * largest_sum) }
        ensures { result ≡ count_below n (mismatch_at n (cells self.now n) arrays.now.label arrays.now.m x b e) };
}

// Row x of a table as cells. For the crates above, too.
pub fn row_of(n: usize, cells: &[u32], x: usize) -> &[u32]
    requires { (n ≤ most_leaves) × (length cells.now ≡ n * n) × (x < n) }
    ensures long { length result.now ≡ n }
    ensures cells { (y : ℕ) → y < n → get_or result.now y 0 ≡ cell n cells.now x y }
{
    let at = x * n;
    let end = at + n;
    &cells[at..end]
}

// A table as cells, row by row.
#[derive(Clone, Copy)]
pub struct Cells<'a> {
    pub cells: &'a [u32],
}

impl<'a> Table for Cells<'a> {
    ghost cells = { λ table n. table.cells.now };

    fn cell(&self, n: usize, i: usize, j: usize) -> u32 {
        self.cells[i * n + j]
    }

    fn row_wrong(&self, n: usize, arrays: &Arrays, x: usize, b: u32, e: u32) -> u32 {
        cells_wrong(n, row_of(n, self.cells, x), arrays, b, e)
    }
}

// A packed table: the cells above the diagonal in two bytes each.
#[derive(Clone, Copy)]
pub struct PackedCells<'a> {
    pub bytes: &'a [u8],
}

impl<'a> Table for PackedCells<'a> {
    ghost cells = { λ table n. table_in n table.bytes.now };

    fn cell(&self, n: usize, i: usize, j: usize) -> u32 {
        packed_tables::cell(n, self.bytes, i, j)
    }

    // The row is copied out first.
    fn row_wrong(&self, n: usize, arrays: &Arrays, x: usize, b: u32, e: u32) -> u32 {
        let mut row: [u32; MOST_LEAVES] = [0; MOST_LEAVES];
        packed_tables::write_row(n, self.bytes, x, &mut row);
        cells_wrong(n, &row[..n], arrays, b, e)
    }
}

// Whether every pair of a leaf of `a` and a leaf of `b` has the cell expected.
fn block_fits<T: Table>(n: usize, table: &T, arrays: &Arrays, a: u32, b: u32, e: u32) -> bool
    requires { (n ≤ most_leaves) × (length (T.cells table.now n) ≡ n * n) × SmallSums n arrays.now.m
        × (e ≤ largest_sum) }
    ensures { (result ≡ true) ↔ BlockFits n (T.cells table.now n) arrays.now.label arrays.now.m a b e }
{
    for x in 0..n {
        if arrays.label[x] == a && table.row_wrong(n, arrays, x, b, e + arrays.m[x]) != 0 {
            return false;
        }
    }
    true
}

// Whether the subtrees labelled `a` and `b` may be merged. One cell is looked at first; then, over the rows of the
// smaller one, all. For the crates above.
pub fn pair_fits<T: Table>(
    n: usize,
    table: &T,
    arrays: &Arrays,
    p: &[u32; LEAF_COUNTS],
    a: usize,
    b: usize,
) -> bool
    requires { TwoLabels n (T.cells table.now n) arrays.now.label arrays.now.m arrays.now.sizes p.now a b }
    ensures { (result ≡ true)
        ↔ SubtreesFit n (T.cells table.now n) arrays.now.label arrays.now.m arrays.now.sizes p.now a b }
{
    let first = arrays.sizes[a];
    let second = arrays.sizes[b];
    let e = p[n - (first + second)];
    let cell = table.cell(n, a, b);
    let expected = e + arrays.m[a] + arrays.m[b];
    if !as_expected(cell, expected) {
        return false;
    }
    if second < first {
        return block_fits(n, table, arrays, b as u32, a as u32, e);
    }
    block_fits(n, table, arrays, a as u32, b as u32, e)
}
