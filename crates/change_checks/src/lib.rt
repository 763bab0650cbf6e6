// What is judged before a tree is changed: sizes, rules and cells, what is named, and whether the table is the tree's
// own.
#![tactic(auto)]

ghost use Rattle.std.specs.Prelude.{◌≡◌, ◌*◌, length};
ghost use Rattle.limits.specs.Limits.{IsLeafCount};
ghost use Rattle.refusals.specs.Refusals.{outcome_of};
ghost use Rattle.trees.specs.Listings.{KeepsRules, tree_of};
ghost use Rattle.grafted_trees.specs.Grafts.{names_edge};
ghost use Rattle.change_answers.specs.Operations.{count_after, is_there, change_refusal};
ghost use Rattle.change_checks.specs.inner.Refusals.{change_sizes_refusal, cells_or_own_refusal};

use change_answers::Change;
use limits::Kind;
use own_tables::is_own_table;
use refusals::Refusal;

// How many leaves the tree has afterwards. For the crates above.
pub fn count_after(n: usize, change: Change) -> usize
    requires { IsLeafCount n }
    ensures { result ≡ count_after n change }
{
    match change {
        Change::Graft(_) => n + 1,
        Change::Prune(_) => n - 1,
    }
}

// Whether a number names an edge of a tree on n leaves: 1 to 2n - 3.
fn is_edge(n: usize, e: usize) -> bool
    requires { IsLeafCount n }
    ensures { result ≡ names_edge n e }
{
    1 <= e && e <= 2 * n - 3
}

// Whether the edge or the leaf that is named is there.
fn is_there(n: usize, change: Change) -> bool
    requires { IsLeafCount n }
    ensures { result ≡ is_there n change }
{
    match change {
        Change::Graft(edge) => is_edge(n, edge),
        Change::Prune(leaf) => leaf < n,
    }
}

// A listing and a table of n leaves, and room for those of m leaves: 1 for m, 2, 3.
fn judge_sizes(
    n: usize,
    m: usize,
    numbers: usize,
    cells: usize,
    room: usize,
    space: usize,
) -> Result<(), Refusal>
    requires { IsLeafCount n }
    ensures { result ≡ outcome_of (change_sizes_refusal n m numbers cells room space) }
{
    if !checks::leaf_count(m) {
        return Err(Refusal::LeafCount);
    }
    if numbers != checks::listing_numbers(n) || cells != checks::table_cells(n) {
        return Err(Refusal::InputLength);
    }
    if room < checks::listing_numbers(m) || space < checks::table_cells(m) {
        return Err(Refusal::OutputRoom);
    }
    Ok(())
}

// What is judged of a table, and of what is named: 4, 5, 20. A tree's own table is never refused by 4 or 5, so only
// another is judged for them.
#[tactic(auto, using(crate::proofs::Refusals::own_told))]
fn judge_cells(there: bool, n: usize, listing: &[u16], table: &[u32]) -> Result<(), Refusal>
    requires { IsLeafCount n × KeepsRules n listing.now × (length table.now ≡ n * n) }
    ensures { result ≡ outcome_of (cells_or_own_refusal there n table.now
        (tree_of n listing.now)) }
{
    if there && is_own_table(n, listing, table) {
        return Ok(());
    }
    match table_checks::judge(Kind::Counts, n, table, 0, 0) {
        Ok(()) => Err(Refusal::NotOwn),
        Err(cells) => Err(cells),
    }
}

// All that is judged before a tree is changed: 1, 2, 3, 7, 8, 4, 5, 20.
pub fn judge(
    change: Change,
    n: usize,
    listing: &[u16],
    table: &[u32],
    room: usize,
    space: usize,
) -> Result<(), Refusal>
    ensures { result
        ≡ outcome_of (change_refusal n listing.now table.now change room space) }
{
    if !checks::leaf_count(n) {
        return Err(Refusal::LeafCount);
    }
    let m = count_after(n, change);
    judge_sizes(n, m, listing.len(), table.len(), room, space)?;
    listings::judge(n, listing, 0, 0)?;
    judge_cells(is_there(n, change), n, listing, table)
}
