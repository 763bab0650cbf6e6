// Our own rebuild: the tree of a table, by our own choice of merges.
#![tactic(auto)]

ghost use Rattle.std.specs.Prelude.{◌≡◌, ◌↔◌, true, ◌-◌, ◌*◌, ◌≤◌, length};
ghost use Rattle.limits.specs.Limits.{most_leaves, IsLeafCount, scale_of};
ghost use Rattle.refusals.specs.Refusals.{outcome, written};
ghost use Rattle.refusals.specs.Meanings.{Gives};
ghost use Rattle.trees.specs.Tables.{IsTable};
ghost use Rattle.merging.specs.Rebuilds.{rebuilt};
ghost use Rattle.rebuild_answers.specs.Operations.{rebuild_answer, packed_answer};
ghost use Rattle.rebuild_answers.specs.Meanings.{RebuildMeans};
ghost use Rattle.own_rebuild.specs.inner.OneSubtree.{OneSubtreeFits};

use eligible_pairs::{Cells, PackedCells, Table, as_expected};
use leaf_merges::{Rows, merge_leaves};
use limits::{Kind, MOST_LEAVES};
use refusals::Refusal;
use state_arrays::{Arrays, scaled_counts};

// Whether one subtree holds all leaves from 1 on, and leaf 0 may be merged with it.
fn one_subtree_fits<T: Table>(n: usize, table: &T, arrays: &Arrays) -> bool
    requires { (n ≤ most_leaves) × (length (T.cells table.now n) ≡ n * n) }
    ensures { (result ≡ true) ↔ OneSubtreeFits n (T.cells table.now n) arrays.now.label arrays.now.m }
{
    for k in 1..n {
        if arrays.label[k] != 1 || !as_expected(table.cell(n, 0, k), arrays.m[k]) {
            return false;
        }
    }
    true
}

// Our own rebuild of a table of this kind that has passed the checks placed before 6: the standard listing of the tree
// that has the table, at the front of `out`; or 6, with `out` as it was. For the crates of the rebuilds.
pub fn rebuild_checked<T: Table>(
    kind: Kind,
    n: usize,
    table: &T,
    out: &mut [u16],
) -> Result<(), Refusal>
    requires { IsLeafCount n × IsTable n (T.cells table.now n) × (2 * (n - 2) ≤ length out.old) }
    ensures answer { result ≡ outcome (rebuilt n (scale_of kind) (T.cells table.now n)) }
    ensures buffer { out.new ≡ written (rebuilt n (scale_of kind) (T.cells table.now n)) out.old }
{
    let p = scaled_counts(kind, n);
    // Both are made here, in place: what a function returns is copied twice, and for arrays of this size that takes
    // half as long as the rebuild of a few leaves.
    let mut arrays = Arrays {
        label: [0; MOST_LEAVES],
        m: [0; MOST_LEAVES],
        sizes: [1; MOST_LEAVES],
    };
    numbers::own_numbers(n, &mut arrays.label);
    let mut rows = Rows {
        names: [0; MOST_LEAVES],
        rows: [0; 2 * MOST_LEAVES],
        made: 0,
    };
    numbers::own_numbers(n, &mut rows.names);
    merge_leaves(n, table, &mut arrays, &mut rows, &p);
    if !one_subtree_fits(n, table, &arrays) {
        return Err(Refusal::NoTree);
    }
    let end = 2 * (n - 2);
    standard_listings::standardise(n, &rows.rows[..end], out)
}

// Our own rebuild of a table of this kind: writes the standard listing of the tree that has it at the front of `out`.
pub fn rebuild(kind: Kind, n: usize, table: &[u32], out: &mut [u16]) -> Result<(), Refusal>
    ensures answer { result ≡ outcome (rebuild_answer kind n table.now (length out.old)) }
    ensures buffer { out.new
        ≡ written (rebuild_answer kind n table.now (length out.old)) out.old }
    ensures meaning { Gives outcome (RebuildMeans kind n table.now (length out.old)) result
        out.old out.new }
{
    table_checks::judge_for_rows(kind, n, table, out.len())?;
    rebuild_checked(kind, n, &Cells { cells: table }, out)
}

// How many bytes a packed table of n leaves has; 0 where no tree has n leaves.
fn packed_bytes(n: usize) -> usize
    ensures { IsLeafCount n → result ≡ n * (n - 1) }
{
    if checks::leaf_count(n) {
        n * (n - 1)
    } else {
        0
    }
}

// Our own rebuild of a packed table: the cells above the diagonal, row by row, in two bytes each, low byte first.
pub fn rebuild_packed(n: usize, packed: &[u8], out: &mut [u16]) -> Result<(), Refusal>
    ensures answer { result ≡ outcome (packed_answer n packed.now (length out.old)) }
    ensures buffer { out.new
        ≡ written (packed_answer n packed.now (length out.old)) out.old }
{
    checks::judge_sizes(
        Kind::Counts,
        n,
        packed_bytes(n),
        packed.len(),
        checks::listing_numbers(n),
        out.len(),
    )?;
    rebuild_checked(Kind::Counts, n, &PackedCells { bytes: packed }, out)
}
