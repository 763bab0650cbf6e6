// The C interface (include/quartree.h): one thin entry for each operation that C calls, and the version.
#![tactic(auto)]

ghost use Rattle.std.specs.Prelude.{◌≡◌, ◌+◌, ◌*◌, length};
ghost use Rattle.limits.specs.Limits.{kind_of};
ghost use Rattle.versions.specs.Versions.{version_number};
ghost use Rattle.refusals.specs.Refusals.{written};
ghost use Rattle.refusals.specs.Meanings.{Gives};
ghost use Rattle.tree_records.specs.declared.Origin.TheVariants.{Rebuilt, Imported};
ghost use Rattle.tree_records.specs.Origins.{origin_of};
ghost use Rattle.tree_records.specs.Records.{marked};
ghost use Rattle.listings.specs.Operations.{check_answer};
ghost use Rattle.standard_listings.specs.Operations.{standardise_answer};
ghost use Rattle.sets.specs.declared.Combination.TheVariants.{Union, Intersection};
ghost use Rattle.lent_sets.specs.Operations.{combine_answer, equal_answer};
ghost use Rattle.splits.specs.Operations.{splits_answer};
ghost use Rattle.pairings.specs.Operations.{lent_pairing_answer};
ghost use Rattle.tree_tables.specs.Operations.{table_answer};
ghost use Rattle.gaps.specs.Operations.{gap_answer};
ghost use Rattle.change_answers.specs.declared.Change.TheVariants.{Graft, Prune};
ghost use Rattle.change_answers.specs.Operations.{change_answer, change_record, change_table};
ghost use Rattle.look_answers.specs.Operations.{look_answer, look_all_answer};
ghost use Rattle.rebuild_answers.specs.Operations.{rebuild_answer, guided_answer};
ghost use Rattle.rebuild_answers.specs.Meanings.{RebuildMeans, GuidedMeans};
ghost use Rattle.sheet_rules.specs.Sheets.{leaves_of, offset_of, name_start, name};
ghost use Rattle.sheet_rules.specs.Operations.{check_sheet_answer};
ghost use Rattle.sheet_tables.specs.Operations.{sheet_table_answer};
ghost use Rattle.sheet_names.specs.Operations.{name_answer};
ghost use Rattle.sheet_trees.specs.Operations.{sheet_bytes_answer};
ghost use Rattle.sheet_trees.specs.Meanings.{SheetBytesMean};
ghost use Rattle.guess_answers.specs.Operations.{guess_answer, guess_listing};
ghost use Rattle.guess_answers.specs.Meanings.{GuessMeans, GivesReply};
ghost use Rattle.guess_replies.specs.Replies.{guess_reply};
ghost use Rattle.newick_rules.specs.Operations.{import_answer, export_answer};
ghost use Rattle.newick_rules.specs.Meanings.{ImportMeans};
ghost use Rattle.poll_rules.specs.Operations.{poll_answer};
ghost use Rattle.replies.specs.Replies.{reply, number_reply, verdict_reply, length_reply, reply_with, number_alone};
ghost use Rattle.record_operations.specs.Operations.{rebuild_record, guided_record, import_record};
ghost use Rattle.record_operations.specs.Operations.{restandardise_record};
ghost use Rattle.record_replies.specs.Replies.{record_reply};

use limits::Kind;
use sets::Combination;
use tree_records::Origin;

// The version that the archive was built from, in one number. Nothing is refused.
#[unsafe(no_mangle)]
pub extern "C" fn quartree_version() -> u32
    ensures { result ≡ version_number }
{
    versions::version_number()
}

// Whether a listing keeps the rules: 1, 2, 7, 8.
#[unsafe(no_mangle)]
pub extern "C" fn quartree_check(n: usize, listing: &[u16]) -> u64
    ensures { result ≡ reply (check_answer n listing.now) }
{
    replies::reply(listings::check(n, listing))
}

// The standard listing of the tree that a listing stands for: 1, 2, 3, 7, 8.
#[unsafe(no_mangle)]
pub extern "C" fn quartree_standardise(n: usize, listing: &[u16], out: &mut [u16]) -> u64
    ensures answer { result ≡ reply (standardise_answer n listing.now (length out.old)) }
    ensures buffer { out.new
        ≡ written (standardise_answer n listing.now (length out.old)) out.old }
{
    replies::reply(standard_listings::standardise(n, listing, out))
}

// The standard listing of a record's tree, and its origin's number as the figure: 1, 2, 3, 7, 8.
#[unsafe(no_mangle)]
pub extern "C" fn quartree_restandardise(
    n: usize,
    origin: u32,
    listing: &[u16],
    out: &mut [u16],
) -> u64
    ensures answer { result ≡ record_reply
        (restandardise_record n listing.now (origin_of origin) (length out.old)) }
    ensures buffer { out.new
        ≡ written (standardise_answer n listing.now (length out.old)) out.old }
{
    replies::reply(record_operations::restandardise(n, Origin::from(origin), listing, out))
}

// The splits of the tree that a listing stands for, as leaf sets: 1, 2, 3, 7, 8.
#[unsafe(no_mangle)]
pub extern "C" fn quartree_splits(n: usize, listing: &[u16], out: &mut [u8]) -> u64
    ensures answer { result ≡ reply (splits_answer n listing.now (length out.old)) }
    ensures buffer { out.new
        ≡ written (splits_answer n listing.now (length out.old)) out.old }
{
    replies::reply(splits::splits(n, listing, out))
}

// The leaves of either of two leaf sets: 2, 3.
#[unsafe(no_mangle)]
pub extern "C" fn quartree_set_join(a: &[u8], b: &[u8], out: &mut [u8]) -> u64
    ensures answer { result
        ≡ reply (combine_answer Union a.now b.now (length out.old)) }
    ensures buffer { out.new
        ≡ written (combine_answer Union a.now b.now (length out.old))
        out.old }
{
    replies::reply(lent_sets::combine(Combination::Union, a, b, out))
}

// The leaves of both of two leaf sets: 2, 3.
#[unsafe(no_mangle)]
pub extern "C" fn quartree_set_intersect(a: &[u8], b: &[u8], out: &mut [u8]) -> u64
    ensures answer { result
        ≡ reply (combine_answer Intersection a.now b.now (length out.old)) }
    ensures buffer { out.new
        ≡ written (combine_answer Intersection a.now b.now (length out.old))
        out.old }
{
    replies::reply(lent_sets::combine(Combination::Intersection, a, b, out))
}

// Whether two leaf sets are equal, 1 or 0 as the figure: 2.
#[unsafe(no_mangle)]
pub extern "C" fn quartree_set_equal(a: &[u8], b: &[u8]) -> u64
    ensures { result ≡ verdict_reply (equal_answer a.now b.now) }
{
    replies::reply(lent_sets::equal(a, b))
}

// How the tree that a listing stands for pairs four leaves: 1, 2, 7, 8, 9.
#[unsafe(no_mangle)]
pub extern "C" fn quartree_pairing(n: usize, listing: &[u16], question: &[u16]) -> u64
    ensures { result ≡ number_reply (lent_pairing_answer n listing.now question.now) }
{
    replies::reply(pairings::lent_pairing(n, listing, question))
}

// The table of the tree that a listing stands for: 1, 2, 3, 7, 8.
#[unsafe(no_mangle)]
pub extern "C" fn quartree_table(n: usize, listing: &[u16], out: &mut [u32]) -> u64
    ensures answer { result ≡ reply (table_answer n listing.now (length out.old)) }
    ensures buffer { out.new
        ≡ written (table_answer n listing.now (length out.old)) out.old }
{
    replies::reply(tree_tables::table(n, listing, out))
}

// The gap between a table and the tree that a listing stands for: 1, 2, 3, 7, 8, 4, 5.
#[unsafe(no_mangle)]
pub extern "C" fn quartree_gap(
    n: usize,
    poll: u32,
    cells: &[u32],
    listing: &[u16],
    out: &mut [i64],
) -> u64
    ensures answer { result ≡ reply
        (gap_answer (kind_of poll) n cells.now listing.now (length out.old)) }
    ensures buffer { out.new ≡ written
        (gap_answer (kind_of poll) n cells.now listing.now (length out.old))
        out.old }
{
    replies::reply(gaps::gap(Kind::from(poll), n, cells, listing, out))
}

// Our own rebuild, and rebuilt as the figure: 1, 2, 3, 4, 5, 6.
#[unsafe(no_mangle)]
pub extern "C" fn quartree_rebuild(n: usize, poll: u32, cells: &[u32], out: &mut [u16]) -> u64
    ensures answer { result
        ≡ record_reply (rebuild_record (kind_of poll) n cells.now (length out.old)) }
    ensures buffer { out.new ≡ written
        (rebuild_answer (kind_of poll) n cells.now (length out.old)) out.old }
    ensures meaning { Gives (λ a. record_reply (marked n Rebuilt a))
        (RebuildMeans (kind_of poll) n cells.now (length out.old)) result
        out.old out.new }
{
    replies::reply(record_operations::rebuild(Kind::from(poll), n, cells, out))
}

// A tree even from a rough table, and its origin and total gap as the figure: 1, 2, 3, 4, 5.
#[unsafe(no_mangle)]
pub extern "C" fn quartree_guess(n: usize, poll: u32, cells: &[u32], out: &mut [u16]) -> u64
    ensures answer { result
        ≡ guess_reply (guess_answer (kind_of poll) n cells.now (length out.old)) }
    ensures buffer { out.new ≡ written
        (guess_listing (kind_of poll) n cells.now (length out.old)) out.old }
    ensures meaning { GivesReply guess_reply
        (GuessMeans (kind_of poll) n cells.now (length out.old)) result
        out.old out.new }
{
    replies::reply(guesses::guess(Kind::from(poll), n, cells, out))
}

// The guided rebuild, and rebuilt as the figure: 1, 2, 3, 4, 5, 12.
#[unsafe(no_mangle)]
pub extern "C" fn quartree_rebuild_guided(
    n: usize,
    poll: u32,
    cells: &[u32],
    merges: &[u16],
    out: &mut [u16],
) -> u64
    ensures answer { result ≡ record_reply
        (guided_record (kind_of poll) n cells.now merges.now (length out.old)) }
    ensures buffer { out.new ≡ written
        (guided_answer (kind_of poll) n cells.now merges.now (length out.old))
        out.old }
    ensures meaning { Gives (λ a. record_reply (marked n Rebuilt a))
        (GuidedMeans (kind_of poll) n cells.now merges.now (length out.old)) result
        out.old out.new }
{
    replies::reply(record_operations::rebuild_guided(Kind::from(poll), n, cells, merges, out))
}

// Leaf n grafted on an edge: the listing and the table of the new tree, and grafted as the figure: 1, 2, 3, 7, 8, 4,
// 5, 20.
#[unsafe(no_mangle)]
pub extern "C" fn quartree_graft(
    n: usize,
    listing: &[u16],
    table: &[u32],
    edge: usize,
    out: &mut [u16],
    cells: &mut [u32],
) -> u64
    ensures answer { result ≡ record_reply (change_record n listing.now table.now (Graft edge)
        (length out.old) (length cells.old)) }
    ensures listing { out.new ≡ written (change_answer n listing.now table.now
        (Graft edge) (length out.old) (length cells.old)) out.old }
    ensures table { cells.new ≡ written (change_table n listing.now table.now
        (Graft edge) (length out.old) (length cells.old)) cells.old }
{
    replies::reply(tree_changes::graft(n, listing, table, edge, out, cells))
}

// The total gap to a new table of n + 1 leaves that the tree would have with leaf n grafted on an edge, as the figure:
// 1, 2, 7, 8, 4, 5, 20, then 4, 5 of the new table.
#[unsafe(no_mangle)]
pub extern "C" fn quartree_look(
    n: usize,
    poll: u32,
    listing: &[u16],
    table: &[u32],
    edge: usize,
    new: &[u32],
) -> u64
    ensures { result ≡ number_reply (look_answer (kind_of poll) n listing.now table.now
        new.now edge) }
{
    replies::reply(looks::look(Kind::from(poll), n, listing, table, new, edge))
}

// The same for every edge, 1 to 2n - 3, written in this order: 1, 2, 3, 7, 8, 4, 5, 20, then 4, 5 of the new table.
#[unsafe(no_mangle)]
pub extern "C" fn quartree_look_all(
    n: usize,
    poll: u32,
    listing: &[u16],
    table: &[u32],
    new: &[u32],
    out: &mut [u64],
) -> u64
    ensures answer { result ≡ reply (look_all_answer (kind_of poll) n listing.now table.now
        new.now (length out.old)) }
    ensures buffer { out.new ≡ written (look_all_answer (kind_of poll) n listing.now
        table.now new.now (length out.old)) out.old }
{
    replies::reply(looks::look_all(Kind::from(poll), n, listing, table, new, out))
}

// A leaf pruned: the same of the tree without it.
#[unsafe(no_mangle)]
pub extern "C" fn quartree_prune(
    n: usize,
    listing: &[u16],
    table: &[u32],
    leaf: usize,
    out: &mut [u16],
    cells: &mut [u32],
) -> u64
    ensures answer { result ≡ record_reply (change_record n listing.now table.now (Prune leaf)
        (length out.old) (length cells.old)) }
    ensures listing { out.new ≡ written (change_answer n listing.now table.now
        (Prune leaf) (length out.old) (length cells.old)) out.old }
    ensures table { cells.new ≡ written (change_table n listing.now table.now
        (Prune leaf) (length out.old) (length cells.old)) cells.old }
{
    replies::reply(tree_changes::prune(n, listing, table, leaf, out, cells))
}

// Whether a sheet keeps the rules, and its leaf count as the figure: 13, 1, 14, 15, 16.
#[unsafe(no_mangle)]
pub extern "C" fn quartree_check_sheet(sheet: &[u8]) -> u64
    ensures { result ≡ reply_with (leaves_of sheet.now) (check_sheet_answer sheet.now) }
{
    replies::reply_with(sheets::leaf_count_of(sheet), sheets::check_sheet(sheet))
}

// The table of a sheet, and its leaf count as the figure: 13, 1, 14, 3, 15, 16.
#[unsafe(no_mangle)]
pub extern "C" fn quartree_sheet_table(sheet: &[u8], out: &mut [u32]) -> u64
    ensures answer { result ≡ reply_with (leaves_of sheet.now)
        (sheet_table_answer sheet.now (length out.old)) }
    ensures buffer { out.new
        ≡ written (sheet_table_answer sheet.now (length out.old)) out.old }
{
    replies::reply_with(
        sheets::leaf_count_of(sheet),
        sheet_tables::sheet_table(sheet, out),
    )
}

// The name of a leaf: as the figure 256 times the place of its first byte in the sheet, and its length: 13, 1, 14, 15,
// 16, and 9 with 0 for a leaf >= n.
#[unsafe(no_mangle)]
pub extern "C" fn quartree_sheet_name(sheet: &[u8], leaf: usize) -> u64
    ensures { result
        ≡ reply_with (256 * (name_start sheet.now leaf + 1) + length (name sheet.now leaf))
        (name_answer sheet.now (leaves_of sheet.now) (offset_of sheet.now) leaf) }
{
    replies::reply(sheet_names::name_place(sheet, leaf))
}

// The Newick text of the tree that a listing stands for, with the names of a sheet, and its length as the figure: 13,
// 1, 2, 14, 7, 8, 15, 16, 3.
#[unsafe(no_mangle)]
pub extern "C" fn quartree_export(sheet: &[u8], listing: &[u16], text: &mut [u8]) -> u64
    ensures answer { result
        ≡ length_reply (export_answer sheet.now listing.now (length text.old)) }
    ensures buffer { text.new
        ≡ written (export_answer sheet.now listing.now (length text.old))
        text.old }
{
    replies::reply(newick_export::export(sheet, listing, text))
}

// The standard listing of the tree that a Newick text draws, with the names of a sheet, and imported as the figure: 13,
// 1, 14, 3, 15, 16, 17, 18, 19.
#[unsafe(no_mangle)]
pub extern "C" fn quartree_import(sheet: &[u8], text: &[u8], out: &mut [u16]) -> u64
    ensures answer { result
        ≡ record_reply (import_record sheet.now text.now (length out.old)) }
    ensures buffer { out.new
        ≡ written (import_answer sheet.now text.now (length out.old))
        out.old }
    ensures meaning { Gives (λ a. record_reply (marked (leaves_of sheet.now) Imported a))
        (ImportMeans sheet.now text.now (length out.old)) result
        out.old out.new }
{
    replies::reply(record_operations::import(sheet, text, out))
}

// A poll added up: 1, 2, 3, 10, 11.
#[unsafe(no_mangle)]
pub extern "C" fn quartree_poll(n: usize, records: &[polls::Record], out: &mut [u32]) -> u64
    ensures answer { result ≡ reply (poll_answer n records.now (length out.old)) }
    ensures buffer { out.new
        ≡ written (poll_answer n records.now (length out.old)) out.old }
{
    replies::reply(polls::poll(n, records, out))
}

// The tree of a strain sheet: sheet bytes in, listing bytes out (4(n - 2) of them, low byte first), and 0 or the
// refusal's number: 13, 1, 14, 3, 15, 16, 6.
#[unsafe(no_mangle)]
pub extern "C" fn quartree_rebuild_sheet(sheet: &[u8], listing: &mut [u8]) -> u32
    ensures answer { result
        ≡ number_alone (sheet_bytes_answer sheet.now (length listing.old)) }
    ensures buffer { listing.new
        ≡ written (sheet_bytes_answer sheet.now (length listing.old)) listing.old }
    ensures meaning { Gives number_alone (SheetBytesMean sheet.now (length listing.old)) result
        listing.old listing.new }
{
    replies::answer_number(sheet_trees::listing_bytes_of(sheet, listing))
}
