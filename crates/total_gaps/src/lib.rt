// The total gap between a table and a tree, row by row in the order of the places of the leaves: the gaps before the
// diagonal are as large as those above it, since both tables have equal halves.
#![tactic(auto)]

ghost use Rattle.std.specs.Prelude.{◌≡◌, ◌*◌, ◌≤◌, length};
ghost use Rattle.limits.specs.Limits.{most_scale, scale_of, IsLeafCount};
ghost use Rattle.trees.specs.Listings.{KeepsRules, tree_of};
ghost use Rattle.trees.specs.Tables.{IsTable};
ghost use Rattle.trees.specs.Gaps.{total_gap};
ghost use Rattle.leaf_orders.specs.inner.LeafOrders.{at};
ghost use Rattle.total_gaps.specs.inner.Sizes.{SizesAdded};

use leaf_orders::LeafOrder;
use least_depths::TableRow;
use limits::Kind;
use numbers::apart;

// The sizes of the gaps of a row before the diagonal, added up. Their lower and their upper 16 bits are added up apart,
// in 32 bits: so the processor takes four cells at a time. The scale is known when this is compiled: with counts the
// loop has no product to take.
fn add_row<const SCALE: u32>(row: &TableRow, cells: &[u32]) -> u64
    requires { (SCALE ≤ most_scale) × (row.now.order.now.n * row.now.order.now.n ≤ length cells.now) }
    ensures { SizesAdded SCALE row.now.order.now row.now.place cells.now
        (at row.now.order.now.leaves row.now.place) result }
{
    let i = row.leaf();
    let start = i * row.order.n;
    let mut low: u32 = 0;
    let mut high: u32 = 0;
    for j in 0..i {
        let size = apart(cells[start + j], SCALE * row.count_at(j));
        low += size % 65536;
        high += size / 65536;
    }
    u64::from(low) + 65536 * u64::from(high)
}

// The total gap between a table of this scale and the tree that a listing stands for.
fn total_at_scale<const SCALE: u32>(n: usize, cells: &[u32], listing: &[u16]) -> u64
    requires { (SCALE ≤ most_scale) × IsLeafCount n × IsTable n cells.now × KeepsRules n listing.now }
    ensures { result ≡ total_gap n SCALE cells.now (tree_of n listing.now) }
{
    let mut order = LeafOrder::new(listing);
    order.fill(n);
    let mut row = TableRow::first(&order);
    let mut total: u64 = 0;
    for p in 0..n {
        row.seek(p);
        total += add_row::<SCALE>(&row, cells);
    }
    total
}

// The total gap between a table of this kind and the tree that a listing stands for: the sum over i < j of the gap's
// size. For the crates above.
pub fn total_gap(kind: Kind, n: usize, cells: &[u32], listing: &[u16]) -> u64
    requires { IsLeafCount n × IsTable n cells.now × KeepsRules n listing.now }
    ensures { result ≡ total_gap n (scale_of kind) cells.now (tree_of n listing.now) }
{
    match kind {
        Kind::Counts => total_at_scale::<1>(n, cells, listing),
        Kind::Poll => total_at_scale::<6>(n, cells, listing),
    }
}
