// The sets of leaves under the nodes of a listing, written one after the other.
ghost use Rattle.std.specs.Prelude.{◌≡◌, ℕ, ◌-◌, ◌*◌, ◌≤◌, ◌<◌, length};
ghost use Rattle.limits.specs.Limits.{IsLeafCount, most_nodes, set_bytes};
ghost use Rattle.trees.specs.Trees.{leaf};
ghost use Rattle.trees.specs.Listings.{KeepsRules};
ghost use Rattle.splits.specs.inner.NodeSets.{HoldsSet, with_sets};

use limits::{MOST_NODES, SET_BYTES};
use listings::row_at;
use sets::Combination;

// Puts the set of each leaf below n at its number.
fn put_leaves(n: usize, under: &mut [[u8; SET_BYTES]; MOST_NODES])
    requires { IsLeafCount n × (length under.old ≡ most_nodes) }
    ensures { (length under.new ≡ most_nodes)
        × ((k : ℕ) → k < n → HoldsSet under.new k (leaf k)) }
{
    for k in 0..n {
        under[k] = sets::single(k);
    }
}

// Writes the set of leaves under each node but the last of a listing, in node order. Cells beyond stay as they were.
pub(crate) fn write_splits(n: usize, rows: &[u16], out: &mut [u8])
    requires { IsLeafCount n × KeepsRules n rows.now × (set_bytes * (n - 3) ≤ length out.old) }
    ensures { out.new ≡ with_sets n rows.now out.old }
{
    let mut under = [[0u8; SET_BYTES]; MOST_NODES];
    put_leaves(n, &mut under);
    for k in 0..n - 3 {
        let r = row_at(rows, k);
        let set = sets::combine(Combination::Union, under[r.first], under[r.second]);
        under[n + k] = set;
        sets::put_set(out, SET_BYTES * k, set);
    }
}
