// The gap between a table and a tree, written row by row: each row of the tree's table is taken from the same row of
// the other.
#![tactic(auto)]

ghost use Rattle.std.specs.Prelude.{◌≡◌, ◌++◌, ◌*◌, ◌≤◌, pos, ◌-ℤ◌, length, drop};
ghost use Rattle.limits.specs.Limits.{most_cells, most_scale, IsLeafCount};
ghost use Rattle.refusals.specs.Refusals.{outcome_of, outcome, written};
ghost use Rattle.trees.specs.Listings.{KeepsRules, tree_of};
ghost use Rattle.gaps.specs.Operations.{gaps, gap_refusal, gap_answer};
ghost use Rattle.gaps.specs.inner.Rows.{GapRowWritten};

use leaf_orders::LeafOrder;
use least_depths::TableRow;
use limits::Kind;
use refusals::Refusal;

// The gap at one cell: the table's number less the tree's, which is the count at the table's scale.
fn less(cell: u32, scale: u32, count: u32) -> i64
    requires { (scale ≤ most_scale) × (count ≤ most_cells) }
    ensures { result ≡ pos cell -ℤ pos (scale * count) }
{
    i64::from(cell) - i64::from(scale * count)
}

// A row of the gap, where the rows before it are written. The scale is known when this is compiled: with counts the
// loop has no product to take.
fn subtract_row<const SCALE: u32>(row: &TableRow, cells: &[u32], out: &mut [i64])
    requires { (SCALE ≤ most_scale) × (row.now.order.now.n * row.now.order.now.n ≤ length cells.now)
        × (row.now.order.now.n * row.now.order.now.n ≤ length out.old) }
    ensures { GapRowWritten SCALE row.now.order.now row.now.place cells.now out.old out.new }
{
    let n = row.order.n;
    let start = row.leaf() * n;
    for j in 0..n {
        out[start + j] = less(cells[start + j], SCALE, row.count_at(j));
    }
}

// The gap at each cell between a table of this scale and the tree that a listing stands for.
fn fill_gap<const SCALE: u32>(n: usize, cells: &[u32], listing: &[u16], out: &mut [i64])
    requires { (SCALE ≤ most_scale) × IsLeafCount n × (length cells.now ≡ n * n) × KeepsRules n listing.now
        × (n * n ≤ length out.old) }
    ensures { out.new ≡ gaps n SCALE cells.now (tree_of n listing.now) ++ drop (n * n) out.old }
{
    let mut order = LeafOrder::new(listing);
    order.fill(n);
    let mut row = TableRow::first(&order);
    for i in 0..n {
        let p = row.order.places[i];
        row.seek(p);
        subtract_row::<SCALE>(&row, cells, out);
    }
}

// Judges a table of this kind and a listing, and the room for a gap at each cell: 1, 2, 3, 7, 8, 4, 5. Where the cells
// are judged the sizes are right, so that only 4 and 5 are left to arise.
fn judge_gap(
    kind: Kind,
    n: usize,
    cells: &[u32],
    listing: &[u16],
    room: usize,
) -> Result<(), Refusal>
    ensures { result ≡ outcome_of (gap_refusal kind n cells.now listing.now room) }
{
    checks::judge_input(kind, n, checks::table_cells(n), cells.len())?;
    listings::judge_for_cells(n, listing, room)?;
    table_checks::judge(kind, n, cells, 0, 0)
}

// Writes the gap between a table of this kind and the tree that a listing stands for at the front of `out`: each cell
// less the tree's at the table's scale.
pub fn gap(
    kind: Kind,
    n: usize,
    cells: &[u32],
    listing: &[u16],
    out: &mut [i64],
) -> Result<(), Refusal>
    ensures answer { result
        ≡ outcome (gap_answer kind n cells.now listing.now (length out.old)) }
    ensures buffer { out.new
        ≡ written (gap_answer kind n cells.now listing.now (length out.old))
        out.old }
{
    judge_gap(kind, n, cells, listing, out.len())?;
    match kind {
        Kind::Counts => fill_gap::<1>(n, cells, listing, out),
        Kind::Poll => fill_gap::<6>(n, cells, listing, out),
    }
    Ok(())
}
