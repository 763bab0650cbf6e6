// The guess: a tree even from a table that no tree has.
#![tactic(auto)]

ghost use Rattle.std.specs.Prelude.{◌≡◌, ◌-◌, ◌*◌, ◌≤◌, length};
ghost use Rattle.limits.specs.Limits.{IsCountOf, scale_of};
ghost use Rattle.refusals.specs.Refusals.{accepted, written};
ghost use Rattle.trees.specs.Tables.{IsTable};
ghost use Rattle.merging.specs.Guesses.{replied};
ghost use Rattle.sheet_rules.specs.Sheets.{leaves_of};
ghost use Rattle.guess_answers.specs.Operations.{guess_answer, guess_listing, sheet_guess_answer, sheet_guess_listing};
ghost use Rattle.guess_answers.specs.Operations.{sheet_reply, sheet_guessed, listing_of};
ghost use Rattle.guess_answers.specs.Meanings.{GuessMeans, SheetGuessMeans, GivesReply};
ghost use Rattle.guesses.specs.Outcomes.{found, guess_outcome, found_figure};

use eligible_pairs::Cells;
use limits::Kind;
use refusals::Refusal;
use replies::Figured;
use sheets::JudgedSheet;
use tree_records::Origin;

// What the guess tells: the origin of the tree whose listing stands in the lent buffer, and its total gap to the table.
#[derive(Clone, Copy)]
pub struct Found {
    pub origin: Origin,
    pub total: u64,
}

impl Found {
    fn new(origin: Origin, total: u64) -> Found
        ensures { result ≡ record { origin = origin; total = total } }
    {
        Found { origin, total }
    }
}

// The reply of a call that makes a guess tells the total gap and, in its lowest eight bits, the origin's number.
impl Figured for Found {
    ghost told = { found_figure };

    fn figure(self) -> usize {
        replies::two_figures(self.total as usize, usize::from(self.origin))
    }
}

// The reply to a table of this kind that has passed the checks: the tree that has it, or the guess.
fn guess_checked(kind: Kind, n: usize, table: &[u32], out: &mut [u16]) -> Found
    requires { IsCountOf kind n × IsTable n table.now × (2 * (n - 2) ≤ length out.old) }
    ensures found { result ≡ found (replied n (scale_of kind) table.now) }
    ensures buffer { out.new
        ≡ written (listing_of (accepted (replied n (scale_of kind) table.now))) out.old }
{
    match own_rebuild::rebuild_checked(kind, n, &Cells { cells: table }, out) {
        Ok(()) => Found::new(Origin::Rebuilt, 0),
        Err(_) => Found::new(
            Origin::Guessed,
            guess_trees::guess_tree(kind, n, table, out),
        ),
    }
}

// The guess of a table of this kind: writes the standard listing of the tree that has it, or of the guessed one, at the
// front of `out`: 1, 2, 3, 4, 5.
pub fn guess(kind: Kind, n: usize, table: &[u32], out: &mut [u16]) -> Result<Found, Refusal>
    ensures answer { result
        ≡ guess_outcome (guess_answer kind n table.now (length out.old)) }
    ensures buffer { out.new
        ≡ written (guess_listing kind n table.now (length out.old)) out.old }
    ensures meaning { GivesReply guess_outcome
        (GuessMeans kind n table.now (length out.old)) result
        out.old out.new }
{
    table_checks::judge_for_rows(kind, n, table, out.len())?;
    Ok(guess_checked(kind, n, table, out))
}

// The guess of the table of a sheet that has been judged, with room for a listing. Its total gap.
fn sheet_guess(sheet: &JudgedSheet, out: &mut [u16]) -> u64
    requires { 2 * (leaves_of sheet.now - 2) ≤ length out.old }
    ensures total { result ≡ (sheet_guessed sheet.now).total }
    ensures buffer { out.new
        ≡ written (accepted (sheet_guessed sheet.now).listing) out.old }
{
    let n = sheet.leaves();
    let mut table = [0u32; limits::MOST_CELLS];
    // The array has room for the table of any sheet, so that it is never refused.
    let _ = sheet_tables::table_of(sheet, &mut table);
    let cells = n * n;
    guess_trees::guess_tree(Kind::Counts, n, &table[..cells], out)
}

// The reply to the table of a sheet that has been judged: the tree that has it, or the guess.
fn guess_checked_sheet(sheet: &JudgedSheet, out: &mut [u16]) -> Found
    requires { 2 * (leaves_of sheet.now - 2) ≤ length out.old }
    ensures found { result ≡ found (sheet_reply sheet.now) }
    ensures buffer { out.new
        ≡ written (listing_of (accepted (sheet_reply sheet.now))) out.old }
{
    match sheet_trees::tree_of(sheet, out) {
        Ok(()) => Found::new(Origin::Rebuilt, 0),
        Err(_) => Found::new(Origin::Guessed, sheet_guess(sheet, out)),
    }
}

// The guess of a sheet's table: 13, 1, 14, 3, 15, 16.
pub fn guess_sheet(sheet: &[u8], out: &mut [u16]) -> Result<Found, Refusal>
    ensures answer { result ≡ guess_outcome (sheet_guess_answer sheet.now (length out.old)) }
    ensures buffer { out.new
        ≡ written (sheet_guess_listing sheet.now (length out.old)) out.old }
    ensures meaning { GivesReply guess_outcome
        (SheetGuessMeans sheet.now (length out.old)) result
        out.old out.new }
{
    let judged = sheet_trees::judge_rows(sheet, 2, out.len())?;
    Ok(guess_checked_sheet(&judged, out))
}
