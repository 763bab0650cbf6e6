// The merges of a guess, and the table of the tree that they make: each merge takes the pair of subtrees with the
// smallest mean, and writes the values expected of the cells that it brings together. For the crate of the guess.
#![tactic(auto)]

ghost use Rattle.std.specs.Prelude.{◌≡◌, ◌≢◌, ℕ, ◌+◌, ◌-◌, ◌<◌, ◌≤◌, get_or};
ghost use Rattle.limits.specs.Limits.{most_leaves};
ghost use Rattle.packed_tables.specs.Packed.{Packed};
ghost use Rattle.state_arrays.specs.inner.Fits.{counts_scale, largest_sum, SmallSums, TwoLabels};
ghost use Rattle.guess_merges.specs.inner.Blocks.{SmallValues, RowPut, BlockPut};
ghost use Rattle.guess_merges.specs.inner.Guessing.{GuessGiven, Guessing};

use gap_sums::renew;
use limits::{LEAF_COUNTS, MOST_LEAVES, MOST_PAIRS};
use nearest_pairs::{choose, renew_partners};
use packed_writing::put_cell;
use state_arrays::Arrays;

// The cells of leaf x and the leaves of the subtree `b`: e is expected of each, and the m of that leaf.
fn put_row(n: usize, arrays: &Arrays, x: usize, b: u32, e: u32, own: &mut [u8])
    requires { Packed n own.old × (x < n) × (get_or arrays.now.label x 0 ≢ b)
        × ((y : ℕ) → y < n → get_or arrays.now.label y 0 ≡ b → e + get_or arrays.now.m y 0 < 65536) }
    ensures { RowPut n arrays.now.label arrays.now.m x b e n own.old own.new }
{
    for y in 0..n {
        if arrays.label[y] == b {
            put_cell(n, own, x, y, e + arrays.m[y]);
        }
    }
}

// The cells of the leaves of the subtrees `a` and `b`, over the rows of `a`.
fn put_rows(n: usize, arrays: &Arrays, a: u32, b: u32, e: u32, own: &mut [u8])
    requires { Packed n own.old × (a ≢ b) × SmallSums n arrays.now.m × (e ≤ largest_sum)
        × SmallValues n arrays.now.label arrays.now.m a b e }
    ensures { BlockPut n arrays.now.label arrays.now.m a b e n own.old own.new }
{
    for x in 0..n {
        if arrays.label[x] == a {
            put_row(n, arrays, x, b, e + arrays.m[x], own);
        }
    }
}

// The same, over the rows of the smaller one.
fn put_block(n: usize, arrays: &Arrays, p: &[u32; LEAF_COUNTS], a: usize, b: usize, own: &mut [u8])
    requires { Packed n own.old × (a < n) × (b < n) × (a ≢ b) × SmallSums n arrays.now.m × SmallSums (n + 1) p.now
        × (get_or arrays.now.sizes a 0 + get_or arrays.now.sizes b 0 ≤ n)
        × SmallValues n arrays.now.label arrays.now.m a b
        (get_or p.now (n - (get_or arrays.now.sizes a 0 + get_or arrays.now.sizes b 0)) 0) }
    ensures { BlockPut n arrays.now.label arrays.now.m a b
        (get_or p.now (n - (get_or arrays.now.sizes a 0 + get_or arrays.now.sizes b 0)) 0) n
        own.old own.new }
{
    let first = arrays.sizes[a];
    let second = arrays.sizes[b];
    let e = p[n - (first + second)];
    if second < first {
        put_rows(n, arrays, b as u32, a as u32, e, own);
    } else {
        put_rows(n, arrays, a as u32, b as u32, e, own);
    }
}

// The n - 1 merges of the guess. For the crates above.
pub fn merge_by_means(
    n: usize,
    table: &[u32],
    arrays: &mut Arrays,
    p: &[u32; LEAF_COUNTS],
    sums: &mut [u64; MOST_PAIRS],
    partners: &mut [usize; MOST_LEAVES],
    own: &mut [u8],
)
    requires { GuessGiven n (counts_scale p.now) table.now p.now
        × Guessing n (counts_scale p.now) table.now arrays.old.label arrays.old.m arrays.old.sizes sums.old partners.old
        own.old 0 }
    ensures { Guessing n (counts_scale p.now) table.now arrays.new.label arrays.new.m arrays.new.sizes sums.new
        partners.new own.new (n - 1) }
{
    for _k in 0..n - 1 {
        let pair = choose(n, arrays, sums, partners);
        let a = pair.first;
        let b = pair.second;
        put_block(n, arrays, p, a, b, own);
        arrays.merge(n, p, a, b);
        renew(n, table, arrays, p, a, sums);
        renew_partners(n, arrays, sums, a, b, partners);
    }
}
