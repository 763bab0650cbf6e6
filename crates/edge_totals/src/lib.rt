// The total gap to a new table for every edge that leaf n can be grafted on. The rows of the standard listing are gone
// through as merges, and at each it is weighed what moving leaf n from the edge above the node to those above its
// children adds to the total gap and takes from it. Then the totals are found from the last row down.
#![tactic(auto)]

ghost use Rattle.std.specs.Prelude.{◌≡◌, ℕ, ◌+◌, ◌-◌, ◌*◌, ◌≤◌, ◌<◌, length, get_or, set};
ghost use Rattle.base.specs.Lists.{filled};
ghost use Rattle.trees.specs.Gaps.{total_gap};
ghost use Rattle.trees.specs.Listings.{tree_of};
ghost use Rattle.grafted_trees.specs.Grafts.{grafted};
ghost use Rattle.edge_weights.specs.inner.Rows.{Given};
ghost use Rattle.edge_totals.specs.inner.Kept.{gains, losses, rows, AllWeighed};
ghost use Rattle.edge_totals.specs.inner.Totals.{Moves, MoveFits, SpreadReady};

use block_gaps::Tables;
use edge_weights::{Weight, new_row_gap, weigh_row};
use limits::{LEAF_COUNTS, MOST_NODES};
use listings::row_at;
use numbers::own_numbers;
use state_arrays::Arrays;

// The weights of all numbers, from an array of any content; and the gaps in the row of leaf n at the edge above the
// last.
fn weigh_rows(
    t: Tables,
    listing: &[u16],
    p: &[u32; LEAF_COUNTS],
    weights: &mut [Weight; MOST_NODES],
)
    requires { Given t.n t.scale listing.now t.table.now t.new.now p.now }
    ensures { AllWeighed t.entry.n t.entry.scale listing.now t.entry.table.now t.entry.new.now
        (gains weights.new) (losses weights.new) (rows weights.new) }
{
    let n = t.n;
    let mut arrays = Arrays::single(n);
    let mut firsts = [0u32; MOST_NODES];
    own_numbers(n, &mut firsts);
    for k in 0..n - 2 {
        let w = weigh_row(
            t,
            k,
            listing,
            &arrays.label,
            &arrays.m,
            &arrays.sizes,
            &firsts,
            p,
        );
        let r = row_at(listing, k);
        let i = r.first;
        let j = r.second;
        weights[i] = w.first;
        weights[j] = w.second;
        let a = firsts[i] as usize;
        let b = firsts[j] as usize;
        arrays.merge(n, p, a, b);
        firsts[n + k] = a as u32;
    }
    let last = 2 * n - 3;
    let f = firsts[last] as usize;
    weights[last].row = new_row_gap(t, f, arrays.sizes[f], &arrays.label, &arrays.m, p);
}

// Writes the total gap for the edge above the number e, from that for the edge above its row's node and the gaps in the
// row of leaf n there.
fn move_to(e: usize, above: u64, row: u64, weights: &[Weight; MOST_NODES], out: &mut [u64])
    requires { MoveFits e above row (gains weights.now) (losses weights.now) (length out.old) }
    ensures { out.new ≡ set out.old (e - 1)
        (above + get_or (gains weights.now) e 0 - (get_or (losses weights.now) e 0 + row)) }
{
    let w = weights[e];
    out[e - 1] = above + w.gain - (w.loss + row);
}

// The total gaps for all edges, from the last row down, where that for the edge above the last number is there.
fn spread_totals(n: usize, listing: &[u16], weights: &[Weight; MOST_NODES], out: &mut [u64])
    requires { SpreadReady n listing.now (gains weights.now) (losses weights.now) (rows weights.now) out.old }
    ensures { (f : ℕ → ℕ) → Moves n listing.now (gains weights.now) (losses weights.now)
        (rows weights.now) f → get_or out.old (2 * n - 4) 0 ≡ f (2 * n - 3)
        → out.new ≡ filled (2 * n - 3) (λ k. f (k + 1)) out.old }
{
    for k in (0..n - 2).rev() {
        let r = row_at(listing, k);
        let above = out[n + k - 1];
        let row = weights[n + k].row;
        move_to(r.first, above, row, weights, out);
        move_to(r.second, above, row, weights, out);
    }
}

// Writes the total gaps for all edges of the tree of a standard listing at the front of `out`, where that for the edge
// above the last number is given. For the crates above.
pub fn write_totals(
    n: usize,
    scale: u32,
    listing: &[u16],
    p: &[u32; LEAF_COUNTS],
    table: &[u32],
    new: &[u32],
    last: u64,
    out: &mut [u64],
)
    requires { Given n scale listing.now table.now new.now p.now × (2 * n - 3 ≤ length out.old)
        × (last ≡ total_gap (n + 1) scale new.now (grafted n (tree_of n listing.now) (2 * n - 3))) }
    ensures { out.new ≡ filled (2 * n - 3) (λ k. total_gap (n + 1) scale new.now
        (grafted n (tree_of n listing.now) (k + 1))) out.old }
{
    let mut weights = [Weight {
        gain: 0,
        loss: 0,
        row: 0,
    }; MOST_NODES];
    let t = Tables {
        n,
        scale,
        table,
        new,
    };
    weigh_rows(t, listing, p, &mut weights);
    out[2 * n - 4] = last;
    spread_totals(n, listing, &weights, out);
}
