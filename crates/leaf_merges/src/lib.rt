// The merges of our own rebuild: which pairs are merged, in which order, and the rows of the listing that this makes.
// For the crates of the rebuilds.
#![tactic(auto)]

ghost use Rattle.std.specs.Prelude.{◌≡◌, ◌+◌, ◌*◌, ◌<◌, ◌≤◌, get_or, set, replicate};
ghost use Rattle.base.specs.Lists.{filled};
ghost use Rattle.limits.specs.Limits.{most_leaves};
ghost use Rattle.state_arrays.specs.inner.Fits.{counts_scale, Given, SizesFit};
ghost use Rattle.leaf_merges.specs.inner.Partners.{Partner};
ghost use Rattle.leaf_merges.specs.inner.LeafMerges.{LeavesMerged};

use eligible_pairs::{Table, pair_fits};
use limits::{LEAF_COUNTS, MOST_LEAVES};
use state_arrays::Arrays;

// The rows of a listing, one for each merge that was made, and the number of each label's subtree.
#[derive(Clone, Copy)]
pub struct Rows {
    pub names: [u32; MOST_LEAVES],
    pub rows: [u16; 2 * MOST_LEAVES],
    pub made: usize,
}

impl Rows {
    // No rows: each of n leaves has its own number. What is returned is copied, so that `own_rebuild` makes its rows in
    // place. For the crates above.
    pub fn none(n: usize) -> Self
        requires { n ≤ most_leaves }
        ensures names { result.names ≡ filled n (λ k. k) (replicate most_leaves 0) }
        ensures rows { result.rows ≡ replicate (2 * most_leaves) 0 }
        ensures made { result.made ≡ 0 }
    {
        let mut names = [0; MOST_LEAVES];
        numbers::own_numbers(n, &mut names);
        Rows {
            names,
            rows: [0; 2 * MOST_LEAVES],
            made: 0,
        }
    }

    // The row of the next node, n + made: its children are the subtrees `a` and `b`, and the node is now the number of
    // `a`.
    fn add(&mut self, n: usize, a: usize, b: usize)
        requires { (n ≤ most_leaves) × (a < n) × (b < n) × (self.old.made < most_leaves)
            × (get_or self.old.names a 0 < 2 * most_leaves) × (get_or self.old.names b 0 < 2 * most_leaves) }
        ensures names { self.new.names ≡ set self.old.names a (n + self.old.made) }
        ensures rows { self.new.rows
            ≡ set (set self.old.rows (2 * self.old.made) (get_or self.old.names a 0))
            (2 * self.old.made + 1) (get_or self.old.names b 0) }
        ensures made { self.new.made ≡ self.old.made + 1 }
    {
        self.rows[2 * self.made] = self.names[a] as u16;
        self.rows[2 * self.made + 1] = self.names[b] as u16;
        self.names[a] = (n + self.made) as u32;
        self.made += 1;
    }
}

// The first label after `a` whose subtree may be merged with the subtree `a`.
fn partner<T: Table>(
    n: usize,
    table: &T,
    arrays: &Arrays,
    p: &[u32; LEAF_COUNTS],
    a: usize,
) -> Option<usize>
    requires { SizesFit n (T.cells table.now n) arrays.now.label arrays.now.m arrays.now.sizes p.now
        × (get_or arrays.now.label a 0 ≡ a) × (a < n) }
    ensures { Partner n (T.cells table.now n) arrays.now.label arrays.now.m arrays.now.sizes p.now a result }
{
    for b in a + 1..n {
        if arrays.label[b] as usize == b && pair_fits(n, table, arrays, p, a, b) {
            return Some(b);
        }
    }
    None
}

// The subtree of leaf t is merged with one after the other of those kept, until none is left that may be.
fn merge_leaf<T: Table>(
    n: usize,
    table: &T,
    arrays: &mut Arrays,
    rows: &mut Rows,
    p: &[u32; LEAF_COUNTS],
    t: usize,
)
    requires { Given n (counts_scale p.now) (T.cells table.now n) p.now × (0 < t) × (t < n)
        × LeavesMerged n (counts_scale p.now) (T.cells table.now n) arrays.old.label arrays.old.m arrays.old.sizes
        rows.old.names rows.old.rows rows.old.made (t + 1) }
    ensures { LeavesMerged n (counts_scale p.now) (T.cells table.now n)
        arrays.new.label arrays.new.m arrays.new.sizes rows.new.names rows.new.rows rows.new.made t }
{
    // A while: how many merges there are shows as they are made.
    while let Some(k) = partner(n, table, arrays, p, t) {
        arrays.merge(n, p, t, k);
        rows.add(n, t, k);
    }
}

// The subtree of every leaf from n - 1 down to 1 is merged as far as it may be, with a row for each merge. Leaf 0 is
// left alone. For the crates above.
pub fn merge_leaves<T: Table>(
    n: usize,
    table: &T,
    arrays: &mut Arrays,
    rows: &mut Rows,
    p: &[u32; LEAF_COUNTS],
)
    requires { Given n (counts_scale p.now) (T.cells table.now n) p.now
        × LeavesMerged n (counts_scale p.now) (T.cells table.now n) arrays.old.label arrays.old.m arrays.old.sizes
        rows.old.names rows.old.rows rows.old.made n }
    ensures { LeavesMerged n (counts_scale p.now) (T.cells table.now n)
        arrays.new.label arrays.new.m arrays.new.sizes rows.new.names rows.new.rows rows.new.made 1 }
{
    for t in (1..n).rev() {
        merge_leaf(n, table, arrays, rows, p, t);
    }
}

#[cfg(test)]
mod tests {
    use super::*;

    #[test]
    fn none_has_own_numbers_and_no_row(rt: HostRuntime) {
        for n in [0, 1, 5, MOST_LEAVES] {
            let rows = Rows::none(n);
            for k in 0..MOST_LEAVES {
                let own = if k < n { k as u32 } else { 0 };
                assert_eq!(rt; rows.names[k], own, "leaf {k} of {n}");
            }
            assert!(rt; rows.rows == [0; 2 * MOST_LEAVES], "rows of {n} leaves");
            assert_eq!(rt; rows.made, 0, "of {n} leaves");
        }
    }
}
