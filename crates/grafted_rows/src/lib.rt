// The rows of a tree with a leaf grafted on. The nodes of the standard listing are written anew in post-order, by a
// recursion that returns the next row and the number that the subtree now has; above the subtree whose number names the
// edge, one more row is written, with the new leaf.
#![tactic(auto)]

ghost use Rattle.std.specs.Prelude.{◌≡◌, true, ◌++◌, ℕ, ◌+◌, ◌-◌, ◌*◌, ◌≤◌, ◌<◌, length, set, drop};
ghost use Rattle.limits.specs.Limits.{IsLeafCount};
ghost use Rattle.trees.specs.Trees.{Tree};
ghost use Rattle.trees.specs.Listings.{KeepsRules, tree_of, standard};
ghost use Rattle.grafted_trees.specs.Grafts.{names_edge, with_leaf, grafted};
ghost use Rattle.grafted_rows.specs.inner.Grafting.{grafted_below, RowsFit, SubtreeFits, SubtreeWritten};

use limits::MOST_NUMBERS;
use listings::Row;
use standard_listings::{children, standard_rows};

// What is known of a subtree once its rows are written: the next row, and the number by which a row names it.
#[derive(Clone, Copy)]
struct Written {
    next: usize,
    number: u16,
}

// Writes row t: the numbers of two children. Of n + 1 leaves, row t is node n + 1 + t.
fn write_row(n: usize, t: usize, first: u16, second: u16, out: &mut [u16]) -> Written
    requires { IsLeafCount n × (t < n) × (2 * t + 1 < length out.old) }
    ensures row { out.new ≡ set (set out.old (2 * t) first) (2 * t + 1) second }
    ensures next { result.next ≡ t + 1 }
    ensures number { result.number ≡ n + 1 + t }
{
    out[2 * t] = first;
    out[2 * t + 1] = second;
    Written {
        next: t + 1,
        number: (n + 1 + t) as u16,
    }
}

// Writes the rows of what stands under number v, in post-order from row s on: with the new leaf where the edge is below
// v, and not yet where it is the one above v.
#[cycle(write_below_write_subtree)]
fn write_below(
    n: usize,
    edge: usize,
    rows: &[u16; MOST_NUMBERS],
    v: usize,
    s: usize,
    out: &mut [u16],
) -> Written
    requires { SubtreeFits (grafted_below n edge) n rows.now v s out.old }
    ensures { (X : Tree) (r : ℕ) → RowsFit n rows.now X r (grafted_below n edge X r) v s
        out.old
        → SubtreeWritten n (grafted_below n edge X r) s out.old out.new result.next result.number }
{
    if v < n {
        return Written {
            next: s,
            number: v as u16,
        };
    }
    let c: Row = children(n, rows, v);
    let a = write_subtree(n, edge, rows, c.first, s, out);
    let b = write_subtree(n, edge, rows, c.second, a.next, out);
    write_row(n, b.next, a.number, b.number, out)
}

// The same, and where v names the edge, one row more: the new leaf is put on above v.
#[cycle(write_below_write_subtree)]
fn write_subtree(
    n: usize,
    edge: usize,
    rows: &[u16; MOST_NUMBERS],
    v: usize,
    s: usize,
    out: &mut [u16],
) -> Written
    requires { SubtreeFits (with_leaf n edge) n rows.now v s out.old }
    ensures { (X : Tree) (r : ℕ) → RowsFit n rows.now X r (with_leaf n edge X r) v s
        out.old
        → SubtreeWritten n (with_leaf n edge X r) s out.old out.new result.next result.number }
{
    let w = write_below(n, edge, rows, v, s, out);
    if v != edge {
        return w;
    }
    write_row(n, w.next, w.number, n as u16, out)
}

// Grafts leaf n on an edge of the tree that a listing stands for, and writes the standard listing of the tree that this
// makes at the front of `out`. The edge is named by the standard listing of the old tree. For the crates above.
pub fn graft_rows(n: usize, edge: usize, listing: &[u16], out: &mut [u16])
    requires { IsLeafCount n × KeepsRules n listing.now × (names_edge n edge ≡ true)
        × (2 * (n - 1) ≤ length out.old) }
    ensures { out.new
        ≡ standard (n + 1) (grafted n (tree_of n listing.now) edge)
        ++ drop (2 * (n - 1)) out.old }
{
    let mut rows: [u16; MOST_NUMBERS] = [0; MOST_NUMBERS];
    standard_rows(n, listing, &mut rows);
    write_subtree(n, edge, &rows, 2 * n - 3, 0, out);
}
