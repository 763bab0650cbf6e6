// Looking before grafting: the total gap that the grafted tree would have to a new table, for a chosen edge and for all
// of them. Nothing is written before all is judged, and neither the tree nor a table moves.
#![tactic(auto)]

ghost use Rattle.std.specs.Prelude.{◌≡◌, true, ◌+◌, ◌-◌, ◌*◌, ◌≤◌, length};
ghost use Rattle.limits.specs.Limits.{IsLeafCount, IsCountOf};
ghost use Rattle.base.specs.Lists.{filled};
ghost use Rattle.refusals.specs.Refusals.{outcome_of, outcome, returned, written};
ghost use Rattle.trees.specs.Listings.{KeepsRules, tree_of};
ghost use Rattle.trees.specs.Tables.{table_of, IsTable};
ghost use Rattle.grafted_trees.specs.Grafts.{names_edge};
ghost use Rattle.look_answers.specs.Operations.{look_refusal, look_total, look_answer, look_all_answer};
ghost use Rattle.looks.specs.inner.Refusals.{look_sizes_refusal};

use change_answers::Change;
use edge_totals::write_totals;
use grafted_rows::graft_rows;
use limits::{Kind, MOST_CELLS, MOST_NUMBERS};
use refusals::Refusal;
use standard_listings::standard_rows;
use state_arrays::scaled_counts;

// The sizes of a listing and a table of n leaves, of a new table of n + 1, and of a result of `due` numbers: 1, 2, 3.
fn judge_sizes(
    kind: Kind,
    n: usize,
    numbers: usize,
    cells: usize,
    new_cells: usize,
    due: usize,
    room: usize,
) -> Result<(), Refusal>
    ensures { result ≡ outcome_of (look_sizes_refusal kind n numbers cells new_cells due room) }
{
    if !checks::leaf_count(n) || !checks::leaf_count_of(kind, n + 1) {
        return Err(Refusal::LeafCount);
    }
    if numbers != checks::listing_numbers(n)
        || cells != checks::table_cells(n)
        || new_cells != checks::table_cells(n + 1)
    {
        return Err(Refusal::InputLength);
    }
    if room < due {
        return Err(Refusal::OutputRoom);
    }
    Ok(())
}

// All that is judged of a look: the sizes; then what is judged of a graft that has room for its results; then the cells
// of the new table: 1, 2, 3, 7, 8, 4, 5, 20, 4, 5. For the crates above.
// No struct of the lent inputs: `look` and `look_all` take them as C lends them, and would make one for this call.
pub fn judge(
    kind: Kind,
    n: usize,
    listing: &[u16],
    table: &[u32],
    new: &[u32],
    edge: usize,
    due: usize,
    room: usize,
) -> Result<(), Refusal>
    ensures { result ≡ outcome_of (look_refusal kind n listing.now table.now
        new.now (names_edge n edge) due room) }
{
    judge_sizes(kind, n, listing.len(), table.len(), new.len(), due, room)?;
    change_checks::judge(
        Change::Graft(edge),
        n,
        listing,
        table,
        MOST_NUMBERS,
        MOST_CELLS,
    )?;
    table_checks::judge(kind, n + 1, new, 0, 0)
}

// The total gap of the tree with leaf n grafted on this edge to the new table. For the crates above.
pub fn total_at(kind: Kind, n: usize, listing: &[u16], new: &[u32], edge: usize) -> u64
    requires { IsLeafCount n × IsCountOf kind (n + 1) × KeepsRules n listing.now × IsTable (n + 1) new.now
        × (names_edge n edge ≡ true) }
    ensures { result ≡ look_total kind n listing.now new.now edge }
{
    let mut rows = [0u16; MOST_NUMBERS];
    graft_rows(n, edge, listing, &mut rows);
    let end = 2 * (n - 1);
    total_gaps::total_gap(kind, n + 1, new, &rows[..end])
}

// The total gap that the tree would have with leaf n grafted on this edge.
pub fn look(
    kind: Kind,
    n: usize,
    listing: &[u16],
    table: &[u32],
    new: &[u32],
    edge: usize,
) -> Result<u64, Refusal>
    ensures { result ≡ returned (look_answer kind n listing.now table.now new.now
        edge) }
{
    judge(kind, n, listing, table, new, edge, 0, 0)?;
    Ok(total_at(kind, n, listing, new, edge))
}

// How many edges a tree on n leaves has; 0 where no tree has n leaves.
fn edge_count(n: usize) -> usize
    ensures { IsLeafCount n → result ≡ 2 * n - 3 }
{
    if !checks::leaf_count(n) {
        return 0;
    }
    2 * n - 3
}

// Writes the total gap for every edge, where all has been judged.
fn write_all(kind: Kind, n: usize, listing: &[u16], table: &[u32], new: &[u32], out: &mut [u64])
    requires { IsLeafCount n × IsCountOf kind (n + 1) × KeepsRules n listing.now
        × (table.now ≡ table_of n (tree_of n listing.now)) × IsTable (n + 1) new.now
        × (2 * n - 3 ≤ length out.old) }
    ensures { out.new ≡ filled (2 * n - 3)
        (λ k. look_total kind n listing.now new.now (k + 1)) out.old }
{
    let last = total_at(kind, n, listing, new, 2 * n - 3);
    let scale = kind.scale();
    let p = scaled_counts(kind, n);
    let mut rows = [0u16; MOST_NUMBERS];
    standard_rows(n, listing, &mut rows);
    let end = 2 * (n - 2);
    write_totals(n, scale, &rows[..end], &p, table, new, last, out);
}

// The total gaps that the tree would have with leaf n grafted on each edge, 1 to 2n - 3, written in this order at the
// front of `out`.
pub fn look_all(
    kind: Kind,
    n: usize,
    listing: &[u16],
    table: &[u32],
    new: &[u32],
    out: &mut [u64],
) -> Result<(), Refusal>
    ensures answer { result ≡ outcome (look_all_answer kind n listing.now table.now
        new.now (length out.old)) }
    ensures buffer { out.new ≡ written (look_all_answer kind n listing.now
        table.now new.now (length out.old)) out.old }
{
    judge(kind, n, listing, table, new, 1, edge_count(n), out.len())?;
    write_all(kind, n, listing, table, new, out);
    Ok(())
}
