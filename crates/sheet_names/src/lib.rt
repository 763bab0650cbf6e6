// A strain's name: its bytes, and where they stand in the sheet.
#![tactic(auto)]

ghost use Rattle.std.specs.Prelude.{◌≡◌, MatchResult};
ghost use Rattle.refusals.specs.Refusals.{accepted, refused, answered, returned};
ghost use Rattle.name_index.specs.inner.Indexes.{first_names};
ghost use Rattle.sheet_names.specs.Operations.{name_answer, name_place_answer};
ghost use Rattle.sheet_names.specs.inner.Asked.{asked_refusal};
ghost use Rattle.sheet_names.specs.inner.Figures.{place_figure};

use name_index::NameIndex;
use refusals::Refusal;
use replies::Figured;
use sheets::{Figures, ReadSheet, Sheet};

// Where a strain's name stands in its sheet: the place of its first byte, and how many bytes it has.
#[derive(Clone, Copy)]
pub struct NamePlace {
    pub first: usize,
    pub many: usize,
}

// The reply of a call that asks for a name's place tells 256 times the place of the first byte, and the length.
impl Figured for NamePlace {
    ghost told = { place_figure };

    fn figure(self) -> usize {
        replies::two_figures(self.first, self.many)
    }
}

// Judges a sheet by these figures, and the leaf whose name is asked for: 13, 1, 14, 15, 16, and 9 with 0 for a leaf
// >= n. Where nothing is refused, the index of the sheet's names.
fn judge_name(sheet: &[u8], figures: Figures, leaf: usize) -> Result<NameIndex<'_>, Refusal>
    ensures { result ≡ returned (answered (asked_refusal sheet.now figures.leaves figures.offset leaf)
        (first_names sheet.now figures.leaves)) }
{
    let names = sheets::index_figures(sheet, figures, 0, 0)?;
    if names.len() <= leaf {
        return Err(Refusal::Question(0));
    }
    Ok(names)
}

// The name of a leaf: 13, 1, 14, 15, 16, and 9 with 0 for a leaf >= n. The sheet is judged again with the figures that
// it is kept with, so that figures which do not fit are refused.
pub fn name<'a>(sheet: Sheet<'a>, leaf: usize) -> Result<&'a [u8], Refusal>
    ensures { MatchResult result
        (λ bytes. name_answer sheet.entry.bytes.now sheet.entry.leaves sheet.entry.offset leaf ≡ accepted bytes.now)
        (λ r. name_answer sheet.entry.bytes.now sheet.entry.leaves sheet.entry.offset leaf ≡ refused r) }
{
    let figures = Figures {
        leaves: sheet.leaves,
        offset: sheet.offset,
    };
    let names = judge_name(sheet.bytes, figures, leaf)?;
    Ok(names.name(leaf))
}

// Where the name of a leaf stands, the sheet judged by its trailer's figures: 13, 1, 14, 15, 16, and 9 with 0 for a
// leaf >= n.
pub fn name_place(sheet: &[u8], leaf: usize) -> Result<NamePlace, Refusal>
    ensures { result ≡ name_place_answer sheet.now leaf }
{
    let figures = ReadSheet::new(sheet).figures();
    match judge_name(sheet, figures, leaf) {
        Ok(names) => Ok(NamePlace {
            first: names.start(leaf) + 1,
            many: names.name(leaf).len(),
        }),
        Err(cause) => Err(cause),
    }
}
