// Whether a table is a tree's own, judged row by row, in the order of the places of the leaves.
#![tactic(auto)]

ghost use Rattle.std.specs.Prelude.{◌≡◌, ◌*◌, ◌≤◌, length};
ghost use Rattle.limits.specs.Limits.{IsLeafCount};
ghost use Rattle.trees.specs.Listings.{KeepsRules, tree_of};
ghost use Rattle.trees.specs.Tables.{is_own_table};
ghost use Rattle.own_tables.specs.inner.Rows.{RightCounted};

use leaf_orders::LeafOrder;
use least_depths::TableRow;

// How many cells of a row are the tree's. The whole row is gone through, so that there is no branch in it.
fn count_right(row: &TableRow, cells: &[u32]) -> usize
    requires { row.now.order.now.n * row.now.order.now.n ≤ length cells.now }
    ensures { RightCounted row.now.order.now row.now.place cells.now row.now.order.now.n result }
{
    let n = row.order.n;
    let start = row.leaf() * n;
    let mut right: u32 = 0;
    for j in 0..n {
        right += u32::from(cells[start + j] == row.count_at(j));
    }
    right as usize
}

// Whether a table is that of the tree that a listing stands for. For the crates above.
pub fn is_own_table(n: usize, listing: &[u16], cells: &[u32]) -> bool
    requires { IsLeafCount n × KeepsRules n listing.now × (length cells.now ≡ n * n) }
    ensures { result ≡ is_own_table n cells.now (tree_of n listing.now) }
{
    let mut order = LeafOrder::new(listing);
    order.fill(n);
    let mut row = TableRow::first(&order);
    for p in 0..n {
        row.seek(p);
        if count_right(&row, cells) != n {
            return false;
        }
    }
    true
}
