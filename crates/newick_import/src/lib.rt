// Import: the standard listing of the tree that a Newick text draws, with the names of a sheet.
#![tactic(auto)]

ghost use Rattle.std.specs.Prelude.{◌≡◌, ◌-◌, ◌*◌, ◌≤◌, length};
ghost use Rattle.limits.specs.Limits.{IsLeafCount};
ghost use Rattle.refusals.specs.Refusals.{outcome, written};
ghost use Rattle.refusals.specs.Meanings.{Gives};
ghost use Rattle.sheet_rules.specs.Sheets.{names_of};
ghost use Rattle.newick_rules.specs.Importing.{imported};
ghost use Rattle.newick_rules.specs.Operations.{Strains, import_answer};
ghost use Rattle.newick_rules.specs.Meanings.{ImportMeans};
ghost use Rattle.newick_text.specs.inner.Names.{Indexed};

use name_index::NameIndex;
use newick_text::read_text;
use refusals::Refusal;
use sheets::ReadSheet;
use standard_listings::standard_rows;

// Import with a sheet that has passed, and the index of its names: 17, 18, 19.
fn import_indexed(names: &NameIndex, text: &[u8], out: &mut [u16]) -> Result<(), Refusal>
    requires { IsLeafCount names.now.many × Indexed names.now × Strains names.now.many (names_of names.now.sheet)
        × (2 * (names.now.many - 2) ≤ length out.old) }
    ensures answer { result ≡ outcome (imported (names_of names.now.sheet) text.now) }
    ensures buffer { out.new
        ≡ written (imported (names_of names.now.sheet) text.now) out.old }
{
    let mut drawn = read_text(names, text)?;
    let n = names.len();
    standard_rows(n, drawn.finish(n), out);
    Ok(())
}

// Writes the standard listing of the tree that a text draws, with the names of a sheet, at the front of `out`: 13, 1,
// 14, 3, 15, 16, 17, 18, 19.
pub fn import(sheet: &[u8], text: &[u8], out: &mut [u16]) -> Result<(), Refusal>
    ensures answer { result
        ≡ outcome (import_answer sheet.now text.now (length out.old)) }
    ensures buffer { out.new
        ≡ written (import_answer sheet.now text.now (length out.old))
        out.old }
    ensures meaning { Gives outcome
        (ImportMeans sheet.now text.now (length out.old)) result
        out.old out.new }
{
    let sheet = ReadSheet::new(sheet);
    let due = 2 * checks::rows_of(sheet.figures().leaves);
    let names = sheet.index(due, out.len())?;
    import_indexed(&names, text, out)
}
