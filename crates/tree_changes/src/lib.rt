// The operations that change a tree and keep its table beside it: graft and prune.
#![tactic(auto)]

ghost use Rattle.std.specs.Prelude.{◌≡◌, true, ◌++◌, ◌-◌, ◌*◌, ◌≤◌, length, take, drop};
ghost use Rattle.limits.specs.Limits.{IsLeafCount};
ghost use Rattle.refusals.specs.Refusals.{written};
ghost use Rattle.tree_records.specs.Records.{tree_outcome};
ghost use Rattle.trees.specs.Listings.{KeepsRules, tree_of, standard};
ghost use Rattle.trees.specs.Tables.{table_of};
ghost use Rattle.change_answers.specs.declared.Change.TheVariants.{Graft, Prune};
ghost use Rattle.change_answers.specs.Operations.{count_after, is_there, changed};
ghost use Rattle.change_answers.specs.Operations.{change_answer, change_record, change_table};

use change_answers::Change;
use change_checks::count_after;
use refusals::Refusal;
use tree_records::Origin;

// Writes the standard listing of the changed tree at the front of `out`.
fn write_rows(change: Change, n: usize, listing: &[u16], out: &mut [u16])
    requires { IsLeafCount n × IsLeafCount (count_after n change) × KeepsRules n listing.now
        × (is_there n change ≡ true) × (2 * (count_after n change - 2) ≤ length out.old) }
    ensures { out.new
        ≡ standard (count_after n change) (changed n (tree_of n listing.now) change)
        ++ drop (2 * (count_after n change - 2)) out.old }
{
    match change {
        Change::Graft(edge) => {
            grafted_rows::graft_rows(n, edge, listing, out);
        }
        Change::Prune(leaf) => {
            spanned_rows::prune_rows(n, leaf, listing, out);
        }
    }
}

// Writes the table of the tree whose listing stands at the front of some numbers.
fn write_table(n: usize, numbers: &[u16], out: &mut [u32])
    requires { IsLeafCount n × (2 * (n - 2) ≤ length numbers.now)
        × KeepsRules n (take (2 * (n - 2)) numbers.now) × (n * n ≤ length out.old) }
    ensures { out.new
        ≡ table_of n (tree_of n (take (2 * (n - 2)) numbers.now)) ++ drop (n * n) out.old }
{
    let end = 2 * (n - 2);
    tree_tables::fill_table(n, &numbers[..end], out);
}

// Judges a change, writes the changed tree's standard listing and its table, counted afresh, and marks it grafted.
// No struct of the lent inputs: `graft` and `prune` take them as C lends them, and would make one for this call.
fn apply(
    change: Change,
    n: usize,
    listing: &[u16],
    table: &[u32],
    out: &mut [u16],
    cells: &mut [u32],
) -> Result<Origin, Refusal>
    ensures answer { result ≡ tree_outcome (change_record n listing.now table.now change
        (length out.old) (length cells.old)) }
    ensures listing { out.new ≡ written (change_answer n listing.now table.now
        change (length out.old) (length cells.old)) out.old }
    ensures table { cells.new ≡ written (change_table n listing.now table.now
        change (length out.old) (length cells.old)) cells.old }
{
    change_checks::judge(change, n, listing, table, out.len(), cells.len())?;
    write_rows(change, n, listing, out);
    write_table(count_after(n, change), out, cells);
    Ok(Origin::Grafted)
}

// Grafts leaf n on an edge: writes the standard listing of the grafted tree and its table, and marks it grafted.
pub fn graft(
    n: usize,
    listing: &[u16],
    table: &[u32],
    edge: usize,
    out: &mut [u16],
    cells: &mut [u32],
) -> Result<Origin, Refusal>
    ensures answer { result ≡ tree_outcome (change_record n listing.now table.now (Graft edge)
        (length out.old) (length cells.old)) }
    ensures listing { out.new ≡ written (change_answer n listing.now table.now
        (Graft edge) (length out.old) (length cells.old)) out.old }
    ensures table { cells.new ≡ written (change_table n listing.now table.now
        (Graft edge) (length out.old) (length cells.old)) cells.old }
{
    apply(Change::Graft(edge), n, listing, table, out, cells)
}

// Prunes a leaf: writes the standard listing of the pruned tree and its table, and marks it grafted.
pub fn prune(
    n: usize,
    listing: &[u16],
    table: &[u32],
    leaf: usize,
    out: &mut [u16],
    cells: &mut [u32],
) -> Result<Origin, Refusal>
    ensures answer { result ≡ tree_outcome (change_record n listing.now table.now (Prune leaf)
        (length out.old) (length cells.old)) }
    ensures listing { out.new ≡ written (change_answer n listing.now table.now
        (Prune leaf) (length out.old) (length cells.old)) out.old }
    ensures table { cells.new ≡ written (change_table n listing.now table.now
        (Prune leaf) (length out.old) (length cells.old)) cells.old }
{
    apply(Change::Prune(leaf), n, listing, table, out, cells)
}
