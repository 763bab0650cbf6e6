// The tree of a strain sheet: sheet in, listing out.
#![tactic(auto)]

ghost use Rattle.std.specs.Prelude.{◌≡◌, ◌-◌, ◌*◌, ◌≤◌, length};
ghost use Rattle.refusals.specs.Refusals.{outcome, written, answered, returned};
ghost use Rattle.refusals.specs.Meanings.{Gives};
ghost use Rattle.sheet_rules.specs.Sheets.{leaves_of};
ghost use Rattle.sheet_rules.specs.Operations.{sheet_refusal};
ghost use Rattle.sheet_trees.specs.Operations.{sheet_tree, sheet_listing_answer, sheet_bytes_answer};
ghost use Rattle.sheet_trees.specs.Meanings.{SheetBytesMean};

use refusals::Refusal;
use sheets::{JudgedSheet, ReadSheet};

mod bytes;

// Judges a sheet, and the room for a listing that takes so many cells a row: 13, 1, 14, 3, 15, 16. For the crates
// above.
pub fn judge_rows(sheet: &[u8], cells: usize, room: usize) -> Result<JudgedSheet<'_>, Refusal>
    requires { cells ≤ 4 }
    ensures { result ≡ returned (answered (sheet_refusal sheet.now (cells * (leaves_of sheet.now - 2)) room)
        sheet.now) }
{
    let sheet = ReadSheet::new(sheet);
    let due = cells * checks::rows_of(sheet.figures().leaves);
    sheet.judge(due, room)
}

// The tree of a sheet that has been judged, with room for its listing: the rebuild reads the cells where they stand.
// For the crates above.
pub fn tree_of(sheet: &JudgedSheet, listing: &mut [u16]) -> Result<(), Refusal>
    requires { 2 * (leaves_of sheet.now - 2) ≤ length listing.old }
    ensures answer { result ≡ outcome (sheet_tree sheet.now) }
    ensures buffer { listing.new ≡ written (sheet_tree sheet.now) listing.old }
{
    own_rebuild::rebuild_packed(sheet.leaves(), sheet.cells(), listing)
}

// Writes the standard listing of the tree that has the sheet's table at the front of `listing`: 13, 1, 14, 3, 15, 16,
// then 6.
pub fn listing_of(sheet: &[u8], listing: &mut [u16]) -> Result<(), Refusal>
    ensures answer { result ≡ outcome (sheet_listing_answer sheet.now (length listing.old)) }
    ensures buffer { listing.new
        ≡ written (sheet_listing_answer sheet.now (length listing.old)) listing.old }
{
    let judged = judge_rows(sheet, 2, listing.len())?;
    tree_of(&judged, listing)
}

// The same as bytes: two for each number of the listing, low byte first.
pub fn listing_bytes_of(sheet: &[u8], out: &mut [u8]) -> Result<(), Refusal>
    ensures answer { result ≡ outcome (sheet_bytes_answer sheet.now (length out.old)) }
    ensures buffer { out.new
        ≡ written (sheet_bytes_answer sheet.now (length out.old)) out.old }
    ensures meaning { Gives outcome (SheetBytesMean sheet.now (length out.old)) result
        out.old out.new }
{
    let judged = judge_rows(sheet, 4, out.len())?;
    let mut listing = [0u16; limits::MOST_NUMBERS];
    tree_of(&judged, &mut listing)?;
    let end = 2 * checks::rows_of(judged.leaves());
    bytes::write_bytes(&listing[..end], out);
    Ok(())
}
