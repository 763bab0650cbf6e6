// The guess for a table: its tree, written as the standard listing, and its total gap. The merges write the table of
// the tree; our rebuild of that table writes the listing. For the crates above.
#![tactic(auto)]

ghost use Rattle.std.specs.Prelude.{◌≡◌, ◌-◌, ◌*◌, ◌≤◌, length};
ghost use Rattle.limits.specs.Limits.{IsCountOf, scale_of};
ghost use Rattle.refusals.specs.Refusals.{accepted, written};
ghost use Rattle.trees.specs.Tables.{IsTable};
ghost use Rattle.packed_tables.specs.Packed.{Packed};
ghost use Rattle.merging.specs.Guesses.{guessed};
ghost use Rattle.guess_trees.specs.inner.TreeTables.{TreeTable};

use eligible_pairs::PackedCells;
use limits::{Kind, MOST_LEAVES, MOST_PAIRS};
use state_arrays::{Arrays, scaled_counts};

// The table of the tree that the guess makes, packed in the bytes `own`.
fn write_tree_table(kind: Kind, n: usize, table: &[u32], own: &mut [u8])
    requires { IsCountOf kind n × IsTable n table.now × Packed n own.old }
    ensures { TreeTable n (scale_of kind) table.now own.new }
{
    let p = scaled_counts(kind, n);
    let mut arrays = Arrays::single(n);
    let mut sums: [u64; MOST_PAIRS] = [0; MOST_PAIRS];
    let mut partners: [usize; MOST_LEAVES] = [0; MOST_LEAVES];
    gap_sums::start(n, table, p[n - 2], &mut sums);
    nearest_pairs::find_partners(n, &arrays, &sums, &mut partners);
    guess_merges::merge_by_means(n, table, &mut arrays, &p, &mut sums, &mut partners, own);
}

// The tree of the guess: its standard listing, at the front of `out`.
fn write_listing(kind: Kind, n: usize, table: &[u32], out: &mut [u16])
    requires { IsCountOf kind n × IsTable n table.now × (2 * (n - 2) ≤ length out.old) }
    ensures { out.new
        ≡ written (accepted (guessed n (scale_of kind) table.now).listing) out.old }
{
    let mut own: [u8; 2 * MOST_PAIRS] = [0; 2 * MOST_PAIRS];
    let end = n * (n - 1);
    write_tree_table(kind, n, table, &mut own[..end]);
    // The tree's own table is never refused.
    let _ = own_rebuild::rebuild_checked(kind, n, &PackedCells { bytes: &own[..end] }, out);
}

// The guess for a table of this kind that has passed the checks: writes the standard listing of its tree at the front
// of `out`. Its total gap.
pub fn guess_tree(kind: Kind, n: usize, table: &[u32], out: &mut [u16]) -> u64
    requires { IsCountOf kind n × IsTable n table.now × (2 * (n - 2) ≤ length out.old) }
    ensures total { result ≡ (guessed n (scale_of kind) table.now).total }
    ensures buffer { out.new
        ≡ written (accepted (guessed n (scale_of kind) table.now).listing) out.old }
{
    write_listing(kind, n, table, out);
    let numbers = 2 * (n - 2);
    total_gaps::total_gap(kind, n, table, &out[..numbers])
}
