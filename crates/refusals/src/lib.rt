#![tactic(auto)]

ghost use Rattle.std.specs.Prelude.{◌≡◌};
ghost use Rattle.refusals.specs.Refusals.{number_of};

use std::error::Error;
use std::fmt;

// The causes of refusal, in the order of their numbers. A figure counts from 0.
#[derive(Clone, Copy, Debug, PartialEq, Eq)]
pub enum Refusal {
    // 1: the leaf count is outside 3 to 128 (of a poll and of its table, 4 to 32)
    LeafCount,
    // 2: a lent input is not exactly as long as the count needs
    InputLength,
    // 3: an output buffer is shorter than the result
    OutputRoom,
    // 4: the diagonal cell of this leaf, the first such, is not 0
    Diagonal(usize),
    // 5: cells (i, j) and (j, i) are unequal; the first i, j in row order, i < j
    Halves(usize, usize),
    // 6: no binary tree has the table
    NoTree,
    // 7: the child at this position is neither a leaf 1 to n - 1 nor an earlier row's node
    Child(usize),
    // 8: the child at this position was named before
    NamedBefore(usize),
    // 9: the number at this position of a question is no leaf, or repeats an earlier one
    Question(usize),
    // 10: this record's leaves are not those due there
    Record(usize),
    // 11: this record's pairing code is above 6
    PairingCode(usize),
    // 12: this step's proposal names a leaf >= n, one subtree twice, or an ineligible pair
    Proposal(usize),
    // 13: a sheet has under 8 or over 21,512 bytes, or does not end 51 54 hexadecimal
    SheetEnds,
    // 14: offset + n(n - 1) + 8 is not the sheet's length
    SheetLength,
    // 15: this leaf's name has a bad length or byte, or runs past the offset; n: names end before the offset
    Name(usize),
    // 16: this leaf's name equals an earlier one
    SameName(usize),
    // 17: a Newick text breaks the grammar or nests too deep at this byte, or stops early: then the text's length
    Grammar(usize),
    // 18: a node of a Newick text is not binary, apart from a three-way top
    NotBinary,
    // 19: a name of a Newick text is unknown, repeated or missing
    Unmatched,
    // 20: the edge or leaf that is named is absent, or the table is not the tree's own
    NotOwn,
}

// The number of a refusal.
impl From<Refusal> for u32 {
    ghost from_gives = { λ cause number. number ≡ number_of cause };

    fn from(cause: Refusal) -> u32 {
        match cause {
            Refusal::LeafCount => 1,
            Refusal::InputLength => 2,
            Refusal::OutputRoom => 3,
            Refusal::Diagonal(_) => 4,
            Refusal::Halves(_, _) => 5,
            Refusal::NoTree => 6,
            Refusal::Child(_) => 7,
            Refusal::NamedBefore(_) => 8,
            Refusal::Question(_) => 9,
            Refusal::Record(_) => 10,
            Refusal::PairingCode(_) => 11,
            Refusal::Proposal(_) => 12,
            Refusal::SheetEnds => 13,
            Refusal::SheetLength => 14,
            Refusal::Name(_) => 15,
            Refusal::SameName(_) => 16,
            Refusal::Grammar(_) => 17,
            Refusal::NotBinary => 18,
            Refusal::Unmatched => 19,
            Refusal::NotOwn => 20,
        }
    }
}

// The number, and where a program says more, the figure: 11 comes with its record, 12 with its step, 15 with its leaf.
impl fmt::Display for Refusal {
    fn fmt<W: fmt::Write>(&self, f: &mut fmt::Formatter<W>) -> fmt::Result {
        let number = u32::from(*self);
        match self {
            Refusal::PairingCode(record) => write!(f, "{number} at record {record}"),
            Refusal::Proposal(step) => write!(f, "{number} at step {step}"),
            Refusal::Name(leaf) => write!(f, "{number} with {leaf}"),
            _ => write!(f, "{number}"),
        }
    }
}

impl Error for Refusal {}
