// The rows of the tree that some leaves span, and the standard listing of a pruned tree. Row by row of a listing, what
// stays under the two children of a node is joined; where nothing stays of one, it is the other.
#![tactic(auto)]

ghost use Rattle.std.specs.Prelude.{◌≡◌, cond, ◌++◌, ◌+◌, ◌-◌, ◌*◌, ◌≤◌, ◌<◌, length, drop};
ghost use Rattle.base.specs.Numbers.{indicator};
ghost use Rattle.limits.specs.Limits.{most_leaves, most_nodes, most_numbers, IsLeafCount};
ghost use Rattle.trees.specs.Trees.{LeafSet, leaf, node};
ghost use Rattle.trees.specs.Listings.{KeepsRules, tree_of, standard};
ghost use Rattle.spanned_trees.specs.Spans.{rank, pruned};
ghost use Rattle.rerooted_rows.specs.inner.Arrays.{none_joined};
ghost use Rattle.spanned_rows.specs.inner.Marks.{marked, nothing, LeavesNumbered, Spanned};
ghost use Rattle.spanned_rows.specs.inner.Parts.{part, JoinsKept, JoinKeptFits, MayJoinRows, RowsJoined};

use limits::{MOST_LEAVES, MOST_NODES, MOST_NUMBERS};
use listings::row_at;
use rerooted_rows::Rerooting;
use standard_listings::standard_rows;

// The number of a subtree of which nothing stays: no leaf and no node has it.
const NOTHING: u16 = MOST_NODES as u16;

// The number of a leaf: m if it stays.
fn leaf_number(stays: bool, m: usize) -> u16
    requires { m ≤ most_leaves }
    ensures { result ≡ cond stays m nothing }
{
    if stays {
        return m as u16;
    }
    NOTHING
}

// The new number of each leaf that is marked, in order. How many are marked.
fn number_leaves(n: usize, marks: &[bool; MOST_LEAVES], numbers: &mut [u16; MOST_NODES]) -> usize
    requires { (n ≤ most_leaves) × (length numbers.old ≡ most_nodes) }
    ensures count { result ≡ rank (marked marks.now) n }
    ensures each { LeavesNumbered n (marked marks.now) numbers.new }
{
    let mut m = 0;
    for k in 0..n {
        numbers[k] = leaf_number(marks[k], m);
        m += usize::from(marks[k]);
    }
    m
}

// Joins what stays of two subtrees, whose numbers are a and b. The number of what they make.
fn join_kept(m: usize, a: u16, b: u16, joined: &mut Rerooting) -> u16
    requires { JoinKeptFits m a b joined.old }
    ensures { JoinsKept m a b joined.old joined.new result }
{
    match (a, b) {
        (NOTHING, other) | (other, NOTHING) => other,
        _ => joined.join(m, a, b),
    }
}

// Joins what stays under the children of each node, the last of which is joined to leaf 0.
fn join_rows(n: usize, m: usize, listing: &[u16], numbers: &mut [u16; MOST_NODES]) -> Rerooting
    requires { MayJoinRows n m listing.now numbers.old none_joined }
    ensures { (v : LeafSet) → LeavesNumbered n v numbers.old → m ≡ rank v n
        → RowsJoined m (part v (node (leaf 0) (tree_of n listing.now))) result }
{
    let mut joined = Rerooting::new();
    for c in n..2 * n - 2 {
        let row = row_at(listing, c - n);
        let a = numbers[row.first];
        let b = numbers[row.second];
        numbers[c] = join_kept(m, a, b, &mut joined);
    }
    join_kept(m, numbers[0], numbers[2 * n - 3], &mut joined);
    joined
}

// Writes the rows of the tree that the marked leaves span at the front of an array. How many leaves it has. For the
// crates above.
pub fn span_rows(
    n: usize,
    listing: &[u16],
    marks: &[bool; MOST_LEAVES],
    rows: &mut [u16; MOST_NUMBERS],
) -> usize
    requires { IsLeafCount n × KeepsRules n listing.now × IsLeafCount (rank (marked marks.now) n)
        × (length rows.old ≡ most_numbers) }
    ensures { Spanned n listing.now (marked marks.now) result rows.new }
{
    let mut numbers = [0; MOST_NODES];
    let m = number_leaves(n, marks, &mut numbers);
    let mut joined = join_rows(n, m, listing, &mut numbers);
    let end = 2 * (m - 2);
    rows[..end].copy_from_slice(joined.finish(m));
    m
}

// Writes the standard listing of a tree without a leaf at the front of `out`: higher leaves move down by one. For the
// crates above.
pub fn prune_rows(n: usize, leaf: usize, listing: &[u16], out: &mut [u16])
    requires { IsLeafCount n × IsLeafCount (n - 1) × KeepsRules n listing.now × (leaf < n)
        × (2 * (n - 1 - 2) ≤ length out.old) }
    ensures { out.new
        ≡ standard (n - 1) (pruned leaf (tree_of n listing.now))
        ++ drop (2 * (n - 1 - 2)) out.old }
{
    let mut marks = [true; MOST_LEAVES];
    marks[leaf] = false;
    let mut rows = [0; MOST_NUMBERS];
    let m = span_rows(n, listing, &marks, &mut rows);
    let end = 2 * (m - 2);
    standard_rows(m, &rows[..end], out);
}
