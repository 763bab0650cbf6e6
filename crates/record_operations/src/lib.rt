// The operations that make tree records: each marks the tree that an operation below it writes with its origin.
#![tactic(auto)]

ghost use Rattle.std.specs.Prelude.{◌≡◌, length};
ghost use Rattle.refusals.specs.Refusals.{written};
ghost use Rattle.refusals.specs.Meanings.{Gives};
ghost use Rattle.tree_records.specs.declared.Origin.TheVariants.{Rebuilt, Imported};
ghost use Rattle.tree_records.specs.Records.{marked, tree_outcome};
ghost use Rattle.standard_listings.specs.Operations.{standardise_answer};
ghost use Rattle.rebuild_answers.specs.Operations.{rebuild_answer, guided_answer};
ghost use Rattle.rebuild_answers.specs.Meanings.{RebuildMeans, GuidedMeans};
ghost use Rattle.sheet_rules.specs.Sheets.{leaves_of};
ghost use Rattle.sheet_trees.specs.Operations.{sheet_listing_answer};
ghost use Rattle.newick_rules.specs.Operations.{import_answer};
ghost use Rattle.newick_rules.specs.Meanings.{ImportMeans};
ghost use Rattle.record_operations.specs.Operations.{rebuild_record, sheet_record, guided_record};
ghost use Rattle.record_operations.specs.Operations.{lent_record, import_record, restandardise_record};

use limits::Kind;
use refusals::Refusal;
use tree_records::{Origin, mark};

// Our own rebuild of a table of this kind: writes the standard listing of the tree that has it at the front of `out`,
// and marks it rebuilt.
pub fn rebuild(kind: Kind, n: usize, table: &[u32], out: &mut [u16]) -> Result<Origin, Refusal>
    ensures answer { result
        ≡ tree_outcome (rebuild_record kind n table.now (length out.old)) }
    ensures buffer { out.new
        ≡ written (rebuild_answer kind n table.now (length out.old)) out.old }
    ensures meaning { Gives (λ a. tree_outcome (marked n Rebuilt a))
        (RebuildMeans kind n table.now (length out.old)) result
        out.old out.new }
{
    mark(Origin::Rebuilt, own_rebuild::rebuild(kind, n, table, out))
}

// The same of a sheet's table.
pub fn rebuild_sheet(sheet: &[u8], out: &mut [u16]) -> Result<Origin, Refusal>
    ensures answer { result ≡ tree_outcome (sheet_record sheet.now (length out.old)) }
    ensures buffer { out.new
        ≡ written (sheet_listing_answer sheet.now (length out.old)) out.old }
{
    mark(Origin::Rebuilt, sheet_trees::listing_of(sheet, out))
}

// The guided rebuild of a table of this kind by proposed merges: writes the standard listing of the tree that has it,
// and marks it rebuilt.
pub fn rebuild_guided(
    kind: Kind,
    n: usize,
    table: &[u32],
    merges: &[u16],
    out: &mut [u16],
) -> Result<Origin, Refusal>
    ensures answer { result ≡ tree_outcome
        (guided_record kind n table.now merges.now (length out.old)) }
    ensures buffer { out.new
        ≡ written (guided_answer kind n table.now merges.now (length out.old))
        out.old }
    ensures meaning { Gives (λ a. tree_outcome (marked n Rebuilt a))
        (GuidedMeans kind n table.now merges.now (length out.old)) result
        out.old out.new }
{
    mark(
        Origin::Rebuilt,
        guided_rebuild::rebuild_guided(kind, n, table, merges, out),
    )
}

// A lent listing as a tree record: where it keeps the rules, its tree is listed.
pub fn lend(n: usize, listing: &[u16]) -> Result<Origin, Refusal>
    ensures { result ≡ tree_outcome (lent_record n listing.now) }
{
    mark(Origin::Listed, listings::check(n, listing))
}

// Import with the names of a sheet: writes the standard listing of the tree that a text draws, and marks it imported.
pub fn import(sheet: &[u8], text: &[u8], out: &mut [u16]) -> Result<Origin, Refusal>
    ensures answer { result
        ≡ tree_outcome (import_record sheet.now text.now (length out.old)) }
    ensures buffer { out.new
        ≡ written (import_answer sheet.now text.now (length out.old))
        out.old }
    ensures meaning { Gives (λ a. tree_outcome (marked (leaves_of sheet.now) Imported a))
        (ImportMeans sheet.now text.now (length out.old)) result
        out.old out.new }
{
    mark(Origin::Imported, newick_import::import(sheet, text, out))
}

// Writes the standard listing of a record's tree at the front of `out`: the tree and its origin stay.
pub fn restandardise(
    n: usize,
    origin: Origin,
    listing: &[u16],
    out: &mut [u16],
) -> Result<Origin, Refusal>
    ensures answer { result
        ≡ tree_outcome (restandardise_record n listing.now origin (length out.old)) }
    ensures buffer { out.new
        ≡ written (standardise_answer n listing.now (length out.old)) out.old }
{
    mark(origin, standard_listings::standardise(n, listing, out))
}
