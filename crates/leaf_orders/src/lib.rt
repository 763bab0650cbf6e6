// The leaves of a tree in an order in which those of each subtree stand one after the other, what branches off on the
// way down to each, and the depth between each two neighbours in the order. A pass up the rows of the listing counts
// the leaves under each number, and a pass down gives each number its place.
#![tactic(auto)]

ghost use Rattle.std.specs.Prelude.{◌≡◌, ◌+◌, ◌*◌, ◌-◌, ◌<◌, ◌≤◌, replicate};
ghost use Rattle.limits.specs.Limits.{most_leaves, most_nodes, IsLeafCount};
ghost use Rattle.pair_counts.specs.Pairs.{P};
ghost use Rattle.trees.specs.Trees.{size};
ghost use Rattle.trees.specs.Listings.{KeepsRules, subtree_at, tree_of};
ghost use Rattle.leaf_orders.specs.inner.Orders.{Sized, Prepared, Fits, ChildrenTold, nowhere, NumbersPlaced, IsPlan};
ghost use Rattle.leaf_orders.specs.inner.LeafOrders.{IsLeafOrder};

use limits::{MOST_LEAVES, MOST_NODES};
use listings::row_at;

// More than what branches off above any two leaves: depths are counted down from it.
pub const WHOLE: u32 = (2 * MOST_LEAVES * MOST_LEAVES) as u32;

// The order of the first n leaves of the tree that a listing stands for: the place of each leaf and what branches off
// above it; the leaf at each place, and the depth before it. The arrays stand apart: a row of a table reads four of
// `aboves` at a time.
#[derive(Drop)]
pub struct LeafOrder<'a> {
    pub n: usize,
    pub listing: &'a [u16],
    pub places: [usize; MOST_LEAVES],
    pub aboves: [u32; MOST_LEAVES],
    pub leaves: [usize; MOST_LEAVES],
    pub depths: [u32; MOST_LEAVES],
    pub ghost ordered: { IsLeafOrder n (tree_of n listing.now) places aboves leaves depths },
}

// Where a number stands: the place of its first leaf, what branches off above it, and the depth before that leaf.
#[derive(Clone, Copy)]
struct Place {
    place: usize,
    above: u32,
    before: u32,
}

// The children of a number, and where they stand.
#[derive(Clone, Copy)]
struct Children {
    first: usize,
    left: Place,
    second: usize,
    right: Place,
}

// P(k), the number of pairs of k leaves.
fn pairs(k: usize) -> u32
    requires { k ≤ most_leaves }
    ensures { result ≡ P k }
{
    (k * k - k) as u32 / 2
}

// The number of leaves under each number of a listing, where a leaf's is there already.
fn count_leaves(n: usize, listing: &[u16], sizes: &mut [usize; MOST_NODES])
    requires { IsLeafCount n × KeepsRules n listing.now × (sizes.old ≡ replicate most_nodes 1) }
    ensures { Sized n listing.now sizes.new }
{
    for k in 0..n - 2 {
        let r = row_at(listing, k);
        sizes[n + k] = sizes[r.first] + sizes[r.second];
    }
}

// The children of number c, which stands at `at`: they stand side by side, from where it does.
fn children_of(
    n: usize,
    listing: &[u16],
    sizes: &[usize; MOST_NODES],
    c: usize,
    at: Place,
) -> Children
    requires { Prepared n listing.now sizes.now × (n ≤ c) × (c < 2 * n - 2) × Fits n listing.now c at }
    ensures { ChildrenTold n listing.now c at result.first result.left result.second result.right }
{
    let r = row_at(listing, c - n);
    let width = sizes[r.first];
    let other = sizes[r.second];
    let left = at.above + pairs(other);
    let right = at.above + pairs(width);
    let rest = pairs(n - (width + other));
    let depth = rest + (WHOLE - (left + right));
    Children {
        first: r.first,
        left: Place {
            place: at.place,
            above: left,
            before: at.before,
        },
        second: r.second,
        right: Place {
            place: at.place + width,
            above: right,
            before: depth,
        },
    }
}

// Every number takes its place, from the last row down. Leaf 0 stands above all others, at place 0.
fn place_numbers(
    n: usize,
    listing: &[u16],
    sizes: &[usize; MOST_NODES],
    numbers: &mut [Place; MOST_NODES],
)
    requires { Prepared n listing.now sizes.now × (numbers.old ≡ replicate most_nodes nowhere) }
    ensures { NumbersPlaced n listing.now numbers.new n }
{
    let others = pairs(n - 1);
    numbers[0].above = others;
    numbers[2 * n - 3] = Place {
        place: 1,
        above: 0,
        before: WHOLE - others,
    };
    for c in (n..2 * n - 2).rev() {
        let r = children_of(n, listing, sizes, c, numbers[c]);
        numbers[r.first] = r.left;
        numbers[r.second] = r.right;
    }
}

// For the crates above.
impl<'a> LeafOrder<'a> {
    // No leaf is in order yet.
    pub fn new(listing: &'a [u16]) -> LeafOrder<'a>
        ensures { (result.n ≡ 0) × (result.listing.now ≡ listing.now) }
    {
        LeafOrder {
            n: 0,
            listing,
            places: [0; MOST_LEAVES],
            aboves: [0; MOST_LEAVES],
            leaves: [0; MOST_LEAVES],
            depths: [0; MOST_LEAVES],
        }
    }

    // Puts all n leaves in order. In place: a value of this size that is returned is copied twice.
    pub fn fill(&mut self, n: usize)
        requires { IsLeafCount n × KeepsRules n self.old.listing.now }
        ensures { (self.new.n ≡ n) × (self.new.listing.now ≡ self.old.listing.now)
            × IsPlan n (tree_of n self.old.listing.now) self.new.places self.new.aboves self.new.leaves
            self.new.depths }
    {
        let mut sizes = [1usize; MOST_NODES];
        let mut numbers = [Place {
            place: 0,
            above: 0,
            before: 0,
        }; MOST_NODES];
        count_leaves(n, self.listing, &mut sizes);
        place_numbers(n, self.listing, &sizes, &mut numbers);
        self.n = 0;
        for k in 0..n {
            let at = numbers[k];
            self.places[k] = at.place;
            self.aboves[k] = at.above;
            self.leaves[at.place] = k;
            self.depths[at.place] = at.before;
        }
        self.n = n;
    }
}
