// The operation standardise: the standard listing of the tree that a listing stands for. One pass over the rows finds
// the least leaf under each number and puts the children of each node into order; then the nodes are written in
// post-order by a recursion that returns the next row.
#![tactic(auto)]

ghost use Rattle.std.specs.Prelude.{◌≡◌, List, ◌++◌, ℕ, ◌+◌, ◌-◌, ◌*◌, ◌≤◌, ◌<◌, length, get_or, drop};
ghost use Rattle.limits.specs.Limits.{IsLeafCount, most_rows, most_numbers};
ghost use Rattle.refusals.specs.Refusals.{outcome, written};
ghost use Rattle.trees.specs.Listings.{KeepsRules, tree_of, standard};
ghost use Rattle.standard_listings.specs.Operations.{standardise_answer};
ghost use Rattle.standard_listings.specs.inner.Standardising.{standard_first, standard_second};
ghost use Rattle.standard_listings.specs.inner.Standardising.{known_least, Leasts, InOrder, AtNode, RowFits};
ghost use Rattle.standard_listings.specs.inner.Standardising.{child_number, with_row, SubtreeRowsFit};
ghost use Rattle.standard_listings.specs.inner.Standardising.{SubtreeFits, SubtreeRowsWritten};

use limits::{MOST_NUMBERS, MOST_ROWS};
use listings::{Row, row_at};
use refusals::Refusal;

// The least leaf under a number: a leaf is its own, and of a node the array has it.
fn least_of(n: usize, leasts: &[u16; MOST_ROWS], x: usize) -> u16
    requires { IsLeafCount n × (x - n < most_rows) }
    ensures { result ≡ known_least n leasts.now x }
{
    if x < n {
        return x as u16;
    }
    leasts[x - n]
}

// The children of node v: the one with the smaller least leaf comes first.
fn in_order(n: usize, listing: &[u16], leasts: &[u16; MOST_ROWS], v: usize) -> Row
    requires { AtNode n listing.now v × Leasts n listing.now v leasts.now }
    ensures first { result.first ≡ standard_first n listing.now v }
    ensures second { result.second ≡ standard_second n listing.now v }
{
    let r = row_at(listing, v - n);
    let a = r.first;
    let b = r.second;
    if least_of(n, leasts, a) < least_of(n, leasts, b) {
        return r;
    }
    Row {
        first: b,
        second: a,
    }
}

// The children of each node in order; and the least leaf under it, which is that of its first child. For the crates
// above.
pub fn order_rows(
    n: usize,
    listing: &[u16],
    leasts: &mut [u16; MOST_ROWS],
    sorted: &mut [u16; MOST_NUMBERS],
)
    requires { IsLeafCount n × KeepsRules n listing.now × (length leasts.old ≡ most_rows)
        × (length sorted.old ≡ most_numbers) }
    ensures { InOrder n listing.now (2 * n - 2) sorted.new }
{
    for v in n..2 * n - 2 {
        let c = in_order(n, listing, leasts, v);
        let k = 2 * (v - n);
        leasts[v - n] = least_of(n, leasts, c.first);
        sorted[k] = c.first as u16;
        sorted[k + 1] = c.second as u16;
    }
}

// The children of node v, where they stand in order. For the crates above.
pub fn children(n: usize, sorted: &[u16; MOST_NUMBERS], v: usize) -> Row
    requires { (n ≤ v) × (2 * (v - n) + 1 < most_numbers) }
    ensures first { result.first ≡ get_or sorted.now (2 * (v - n)) 0 }
    ensures second { result.second ≡ get_or sorted.now (2 * (v - n) + 1) 0 }
{
    let k = 2 * (v - n);
    Row {
        first: usize::from(sorted[k]),
        second: usize::from(sorted[k + 1]),
    }
}

// The number that a row gives to its child x, of whose rows s is the next.
fn child_number(n: usize, x: usize, s: usize) -> u16
    requires { IsLeafCount n × (s < n) }
    ensures { result ≡ child_number n x s }
{
    if x < n {
        return x as u16;
    }
    (n + s - 1) as u16
}

// Writes row t: the children a and b, whose own rows end before rows s and t.
fn write_row(n: usize, a: usize, s: usize, b: usize, t: usize, out: &mut [u16])
    requires { RowFits n s t out.old }
    ensures { out.new ≡ with_row n a s b t out.old }
{
    out[2 * t] = child_number(n, a, s);
    out[2 * t + 1] = child_number(n, b, t);
}

// Writes the rows of the subtree under node v in post-order, from row s on. The next row after them.
#[cycle(write_node_write_subtree)]
fn write_node(n: usize, sorted: &[u16; MOST_NUMBERS], v: usize, s: usize, out: &mut [u16]) -> usize
    requires { (n ≤ v) × SubtreeFits n sorted.now v s out.old }
    ensures { (l : List ℕ) → SubtreeRowsFit n l sorted.now v s out.old
        → SubtreeRowsWritten n l v s out.old out.new result }
{
    let c = children(n, sorted, v);
    let t = write_subtree(n, sorted, c.first, s, out);
    let r = write_subtree(n, sorted, c.second, t, out);
    write_row(n, c.first, t, c.second, r, out);
    r + 1
}

// The same of what stands under any number: a leaf has no rows.
#[cycle(write_node_write_subtree)]
fn write_subtree(
    n: usize,
    sorted: &[u16; MOST_NUMBERS],
    v: usize,
    s: usize,
    out: &mut [u16],
) -> usize
    requires { SubtreeFits n sorted.now v s out.old }
    ensures { (l : List ℕ) → SubtreeRowsFit n l sorted.now v s out.old
        → SubtreeRowsWritten n l v s out.old out.new result }
{
    if v < n {
        return s;
    }
    write_node(n, sorted, v, s, out)
}

// Writes the standard listing of a listing that keeps the rules at the front of `out`. For the crates above.
pub fn standard_rows(n: usize, listing: &[u16], out: &mut [u16])
    requires { IsLeafCount n × KeepsRules n listing.now × (2 * (n - 2) ≤ length out.old) }
    ensures { out.new
        ≡ standard n (tree_of n listing.now) ++ drop (2 * (n - 2)) out.old }
{
    let mut leasts: [u16; MOST_ROWS] = [0; MOST_ROWS];
    let mut sorted: [u16; MOST_NUMBERS] = [0; MOST_NUMBERS];
    order_rows(n, listing, &mut leasts, &mut sorted);
    // Entered at a node, the recursion is compiled so that it asks whether a child is a leaf before it calls.
    write_node(n, &sorted, 2 * n - 3, 0, out);
}

// Writes the standard listing of the tree that a listing stands for at the front of `out`.
pub fn standardise(n: usize, listing: &[u16], out: &mut [u16]) -> Result<(), Refusal>
    ensures answer { result ≡ outcome (standardise_answer n listing.now (length out.old)) }
    ensures buffer { out.new
        ≡ written (standardise_answer n listing.now (length out.old)) out.old }
{
    listings::judge_for_rows(n, listing, out.len())?;
    standard_rows(n, listing, out);
    Ok(())
}
