// The rows of a tree's table. The count of two leaves is found from what branches off above each and from the least
// depth between their places: the depth of the node in which they meet, the top of the path between them.
#![tactic(auto)]

ghost use Rattle.std.specs.Prelude.{◌≡◌, ℕ, ◌+◌, ◌-◌, ◌<◌, ◌≤◌, length, set};
ghost use Rattle.limits.specs.Limits.{most_leaves};
ghost use Rattle.leaf_orders.specs.inner.LeafOrders.{most_sum, whole, at};
ghost use Rattle.least_depths.specs.inner.Depths.{After, Before, OwnLeaves, TopsFrom, TopsBefore, RowFound};
ghost use Rattle.least_depths.specs.inner.Rows.{count_of};

use leaf_orders::{LeafOrder, WHOLE};
use limits::MOST_LEAVES;

// No depth is larger.
const MOST_DEPTH: u32 = (3 * MOST_LEAVES * MOST_LEAVES) as u32;

// The row of the leaf at a place: what branches off above that leaf, and the least depth between its place and that of
// each other leaf. The leaf itself keeps what makes its own count 0.
#[derive(Drop)]
pub struct TableRow<'a> {
    pub order: &'a LeafOrder<'a>,
    pub place: usize,
    base: u32,
    tops: [u32; MOST_LEAVES],
    pub ghost found: { RowFound order.now.n place base order.now.aboves order.now.leaves order.now.depths tops },
}

// The leaf at place s keeps the smaller of `low` and the depth before place t.
fn keep_least(
    leaves: &[usize; MOST_LEAVES],
    depths: &[u32; MOST_LEAVES],
    t: usize,
    s: usize,
    low: u32,
    tops: &mut [u32; MOST_LEAVES],
) -> u32
    requires { (t < most_leaves) × (s < most_leaves) × (at leaves.now s < most_leaves) }
    ensures { (result ≤ low) × (result ≤ at depths.now t)
        × ((z : ℕ) → z ≤ low → z ≤ at depths.now t → z ≤ result)
        × (tops.new ≡ set tops.old (at leaves.now s) result) }
{
    let least = low.min(depths[t]);
    tops[leaves[s]] = least;
    least
}

// The least depth from place p to each place after it.
fn rightwards(
    n: usize,
    leaves: &[usize; MOST_LEAVES],
    depths: &[u32; MOST_LEAVES],
    p: usize,
    tops: &mut [u32; MOST_LEAVES],
)
    requires { OwnLeaves n leaves.now × (p < n) }
    ensures { After leaves.now depths.now p tops.new n }
{
    let mut low = MOST_DEPTH;
    for t in p + 1..n {
        low = keep_least(leaves, depths, t, t, low, tops);
    }
}

// The least depth from place p to each place before it.
fn leftwards(
    n: usize,
    leaves: &[usize; MOST_LEAVES],
    depths: &[u32; MOST_LEAVES],
    p: usize,
    tops: &mut [u32; MOST_LEAVES],
)
    requires { OwnLeaves n leaves.now × (p < n) }
    ensures { Before leaves.now depths.now p tops.new 0
        × ((s : ℕ) → p < s → s < n → at tops.new (at leaves.now s) ≡ at tops.old (at leaves.now s)) }
{
    let mut low = MOST_DEPTH;
    for t in (0..p).rev() {
        low = keep_least(leaves, depths, t + 1, t, low, tops);
    }
}

// What the leaf at place p keeps as its own; and what branches off above it.
fn keep_own(
    aboves: &[u32],
    leaves: &[usize; MOST_LEAVES],
    p: usize,
    tops: &mut [u32; MOST_LEAVES],
) -> u32
    requires { (p < most_leaves) × (at leaves.now p < most_leaves) × (at leaves.now p < length aboves.now)
        × (at aboves.now (at leaves.now p) ≤ most_sum) }
    ensures { (result ≡ at aboves.now (at leaves.now p))
        × (tops.new ≡ set tops.old (at leaves.now p) (whole - (result + result))) }
{
    let leaf = leaves[p];
    let base = aboves[leaf];
    tops[leaf] = WHOLE - (base + base);
    base
}

// What the counts of the row of the leaf at place p are found from: the least depth between the leaf and each leaf, and
// what branches off above the leaf.
fn find_tops(
    n: usize,
    aboves: &[u32],
    leaves: &[usize; MOST_LEAVES],
    depths: &[u32; MOST_LEAVES],
    p: usize,
    tops: &mut [u32; MOST_LEAVES],
) -> u32
    requires { OwnLeaves n leaves.now × (p < n) × (n ≤ length aboves.now)
        × (at aboves.now (at leaves.now p) ≤ most_sum) }
    ensures { (result ≡ at aboves.now (at leaves.now p))
        × TopsFrom n aboves.now leaves.now depths.now p tops.new }
{
    rightwards(n, leaves, depths, p, tops);
    leftwards(n, leaves, depths, p, tops);
    keep_own(aboves, leaves, p, tops)
}

// The least depth from place p to each place after it, where that from place p - 1 is kept: only the leaves that come
// before the next depth no larger than that before p have another.
fn move_right(
    n: usize,
    leaves: &[usize; MOST_LEAVES],
    depths: &[u32; MOST_LEAVES],
    p: usize,
    tops: &mut [u32; MOST_LEAVES],
)
    requires { OwnLeaves n leaves.now × (0 < p) × (p < n) × After leaves.now depths.now (p - 1) tops.old n }
    ensures { After leaves.now depths.now p tops.new n
        × ((s : ℕ) → s < p → at tops.new (at leaves.now s) ≡ at tops.old (at leaves.now s)) }
{
    let least = depths[p];
    let mut low = MOST_DEPTH;
    let mut t = p + 1;
    // A while: the depths say how far.
    while t < n && least < depths[t] {
        low = keep_least(leaves, depths, t, t, low, tops);
        t += 1;
    }
}

// The least depth from place p to each place before it, where that from place p - 1 is kept: only the leaves that come
// after the last depth no larger than that before p have another, and that is theirs.
fn move_left(
    n: usize,
    leaves: &[usize; MOST_LEAVES],
    depths: &[u32; MOST_LEAVES],
    p: usize,
    tops: &mut [u32; MOST_LEAVES],
)
    requires { OwnLeaves n leaves.now × (0 < p) × (p < n) × Before leaves.now depths.now (p - 1) tops.old 0 }
    ensures { Before leaves.now depths.now p tops.new 0
        × ((s : ℕ) → p < s → s < n → at tops.new (at leaves.now s) ≡ at tops.old (at leaves.now s)) }
{
    let mut t = p - 1;
    let mut low = keep_least(leaves, depths, p, t, MOST_DEPTH, tops);
    // A while: the depths say how far.
    while 0 < t && low < depths[t] {
        low = keep_least(leaves, depths, t, t - 1, low, tops);
        t -= 1;
    }
}

// What the counts of the row of the leaf at place p are found from, where `tops` has that of the place before: the
// least depth between the leaf and each leaf, and what branches off above the leaf. For the crates above: the arrays
// are any in which each place has a leaf of its own.
pub fn next_row(
    n: usize,
    aboves: &[u32],
    leaves: &[usize; MOST_LEAVES],
    depths: &[u32; MOST_LEAVES],
    p: usize,
    tops: &mut [u32; MOST_LEAVES],
) -> u32
    requires { OwnLeaves n leaves.now × (p < n) × (n ≤ length aboves.now)
        × (at aboves.now (at leaves.now p) ≤ most_sum)
        × TopsBefore n aboves.now leaves.now depths.now p tops.old }
    ensures { (result ≡ at aboves.now (at leaves.now p))
        × TopsFrom n aboves.now leaves.now depths.now p tops.new }
{
    if p == 0 {
        return find_tops(n, aboves, leaves, depths, p, tops);
    }
    move_right(n, leaves, depths, p, tops);
    move_left(n, leaves, depths, p, tops);
    keep_own(aboves, leaves, p, tops)
}

// Finds the row of the leaf at place p.
fn find_row(order: &LeafOrder, p: usize, tops: &mut [u32; MOST_LEAVES]) -> u32
    requires { p < order.now.n }
    ensures { RowFound order.now.n p result order.now.aboves order.now.leaves order.now.depths tops.new }
{
    find_tops(
        order.n,
        &order.aboves,
        &order.leaves,
        &order.depths,
        p,
        tops,
    )
}

// For the crates above.
impl<'a> TableRow<'a> {
    // The row of the leaf at the first place.
    pub fn first(order: &'a LeafOrder<'a>) -> TableRow<'a>
        requires { 0 < order.now.n }
        ensures { (result.order.now ≡ order.now) × (result.place ≡ 0) }
    {
        let mut row = TableRow {
            order,
            place: 0,
            base: 0,
            tops: [0; MOST_LEAVES],
        };
        row.base = find_row(order, 0, &mut row.tops);
        row
    }

    // Goes on to the row of the leaf at place p. From the place before the row is moved on; from any other it is found
    // anew.
    pub fn seek(&mut self, p: usize)
        requires { p < self.old.order.now.n }
        ensures { (self.new.order.now ≡ self.old.order.now) × (self.new.place ≡ p) }
    {
        if p == self.place {
            return;
        }
        let order = self.order;
        self.base = if p == self.place + 1 {
            next_row(
                order.n,
                &order.aboves,
                &order.leaves,
                &order.depths,
                p,
                &mut self.tops,
            )
        } else {
            find_row(order, p, &mut self.tops)
        };
        self.place = p;
    }

    // The leaf whose row it is.
    pub fn leaf(&self) -> usize
        ensures { (result ≡ at self.now.order.now.leaves self.now.place) × (result < self.now.order.now.n) }
    {
        self.order.leaves[self.place]
    }

    // The count in the column of leaf j.
    pub fn count_at(&self, j: usize) -> u32
        requires { j < self.now.order.now.n }
        ensures { result ≡ count_of self.now.order.now self.now.place j }
    {
        self.base + self.order.aboves[j] + self.tops[j] - WHOLE
    }
}
