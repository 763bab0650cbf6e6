// The count table of a tree, written row by row, in the order of the places of the leaves.
#![tactic(auto)]

ghost use Rattle.std.specs.Prelude.{◌≡◌, ◌++◌, ◌*◌, ◌≤◌, length, drop};
ghost use Rattle.limits.specs.Limits.{IsLeafCount};
ghost use Rattle.refusals.specs.Refusals.{outcome, written};
ghost use Rattle.trees.specs.Listings.{KeepsRules, tree_of};
ghost use Rattle.trees.specs.Tables.{table_of};
ghost use Rattle.tree_tables.specs.Operations.{table_answer};
ghost use Rattle.tree_tables.specs.inner.Rows.{RowPut};

use leaf_orders::LeafOrder;
use least_depths::TableRow;
use refusals::Refusal;

// A row of the table.
fn write_row(row: &TableRow, out: &mut [u32])
    requires { row.now.order.now.n * row.now.order.now.n ≤ length out.old }
    ensures { RowPut row.now.order.now row.now.place out.old out.new row.now.order.now.n }
{
    let n = row.order.n;
    let start = row.leaf() * n;
    for j in 0..n {
        out[start + j] = row.count_at(j);
    }
}

// The table of the tree that a listing stands for, written at the front of `out`. For the crates above.
pub fn fill_table(n: usize, listing: &[u16], out: &mut [u32])
    requires { IsLeafCount n × KeepsRules n listing.now × (n * n ≤ length out.old) }
    ensures { out.new
        ≡ table_of n (tree_of n listing.now) ++ drop (n * n) out.old }
{
    let mut order = LeafOrder::new(listing);
    order.fill(n);
    let mut row = TableRow::first(&order);
    for p in 0..n {
        row.seek(p);
        write_row(&row, out);
    }
}

// Writes the table of the tree that a listing stands for at the front of `out`.
pub fn table(n: usize, listing: &[u16], out: &mut [u32]) -> Result<(), Refusal>
    ensures answer { result ≡ outcome (table_answer n listing.now (length out.old)) }
    ensures buffer { out.new
        ≡ written (table_answer n listing.now (length out.old)) out.old }
{
    listings::judge_for_cells(n, listing, out.len())?;
    fill_table(n, listing, out);
    Ok(())
}
