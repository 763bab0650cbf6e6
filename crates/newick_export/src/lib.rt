// Export: the Newick text of the tree that a listing stands for, with the names of a sheet.
#![tactic(auto)]

ghost use Rattle.std.specs.Prelude.{◌≡◌, length, MatchResult};
ghost use Rattle.std.proofs.Math.Option.{some};
ghost use Rattle.refusals.specs.Refusals.{outcome_of, written};
ghost use Rattle.newick_rules.specs.Operations.{export_answer};
ghost use Rattle.newick_export.specs.Operations.{replied};
ghost use Rattle.newick_export.specs.inner.Judging.{sizes_refusal, given_refusal, NamesLeft};

use limits::Kind;
use name_index::NameIndex;
use refusals::Refusal;
use sheets::{Figures, ReadSheet};

// Judges the sizes of a sheet with these figures, and of a listing of so many numbers: 13, 1, 2, 14.
fn judge_sizes(sheet: &[u8], figures: Figures, lent: usize) -> Result<(), Refusal>
    ensures { result ≡ outcome_of (sizes_refusal sheet.now figures.leaves figures.offset lent) }
{
    let n = figures.leaves;
    if !sheets::trailer::right_ends(sheet) {
        return Err(Refusal::SheetEnds);
    }
    checks::judge_input(Kind::Counts, n, checks::listing_numbers(n), lent)?;
    if !sheets::trailer::right_sum(sheet, figures) {
        return Err(Refusal::SheetLength);
    }
    Ok(())
}

// Judges a sheet with these figures and a listing, but for the names: 13, 1, 2, 14, 7, 8.
fn judge_given(sheet: &[u8], figures: Figures, listing: &[u16]) -> Result<(), Refusal>
    ensures { MatchResult result (λ x. NamesLeft sheet.now figures.leaves figures.offset listing.now)
        (λ r. given_refusal sheet.now figures.leaves figures.offset listing.now ≡ some r) }
{
    judge_sizes(sheet, figures, listing.len())?;
    listings::judge(figures.leaves, listing, 0, 0)?;
    Ok(())
}

// Writes the Newick text of the tree that a listing stands for, with the names of a sheet, at the front of `text`: 13,
// 1, 2, 14, 7, 8, 15, 16, 3. Before the offset each name has one byte more than its letters, and the text has 2n - 4
// besides.
pub fn export(sheet: &[u8], listing: &[u16], text: &mut [u8]) -> Result<usize, Refusal>
    ensures answer { result
        ≡ replied (export_answer sheet.now listing.now (length text.old)) }
    ensures buffer { text.new
        ≡ written (export_answer sheet.now listing.now (length text.old))
        text.old }
{
    let figures = ReadSheet::new(sheet).figures();
    judge_given(sheet, figures, listing)?;
    let mut names = NameIndex::new(sheet);
    name_checks::take_names(sheet, figures.leaves, figures.offset, &mut names)?;
    if text.len() < figures.offset + 2 * figures.leaves - 4 {
        return Err(Refusal::OutputRoom);
    }
    Ok(newick_writing::write_text(sheet, names.starts(), figures.leaves, listing, text))
}
