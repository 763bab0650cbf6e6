// The limit on the number of leaves, and the sizes that follow from it; and what kinds of tables there are, with their
// scales. specs/Limits.antt has the same names.
#![tactic(auto)]

ghost use Rattle.std.specs.Prelude.{◌≡◌};
ghost use Rattle.limits.specs.Limits.{scale_of, kind_of};

pub const MOST_LEAVES: usize = 128;

// The sizes that a set of leaves may have: 0 to the most leaves.
pub const LEAF_COUNTS: usize = MOST_LEAVES + 1;

// The places of an array by the numbers of a listing, leaves and nodes.
pub const MOST_NODES: usize = 2 * MOST_LEAVES;

// The rows of the longest listing, and its numbers.
pub const MOST_ROWS: usize = MOST_LEAVES - 2;

pub const MOST_NUMBERS: usize = 2 * MOST_ROWS;

// The cells of the largest table.
pub const MOST_CELLS: usize = MOST_LEAVES * MOST_LEAVES;

// The pairs of the most leaves.
pub const MOST_PAIRS: usize = MOST_LEAVES * (MOST_LEAVES - 1) / 2;

// The words of 64 bits of a leaf set, one bit a leaf; and its bytes, those of whole words.
pub const SET_WORDS: usize = (MOST_LEAVES + 63) / 64;

pub const SET_BYTES: usize = 8 * SET_WORDS;

// A poll has fewest to most leaves, and so many cells at most.
pub const FEWEST_POLLED: usize = 4;

pub const MOST_POLLED: usize = 32;

pub const MOST_POLL_CELLS: usize = MOST_POLLED * MOST_POLLED;

// What a table counts: the quartets of a tree, or the records of a poll.
#[derive(Clone, Copy, Debug, PartialEq, Eq)]
pub enum Kind {
    Counts,
    Poll,
}

impl Kind {
    // The scale of a table of this kind: what a tree's count is multiplied by.
    pub fn scale(self) -> u32
        ensures { result ≡ scale_of self }
    {
        match self {
            Kind::Counts => 1,
            Kind::Poll => 6,
        }
    }
}

// The kind that a caller from C names: 0 for counts, any other number for a poll's.
impl From<u32> for Kind {
    ghost from_gives = { λ poll kind. kind ≡ kind_of poll };

    fn from(poll: u32) -> Kind {
        if poll == 0 { Kind::Counts } else { Kind::Poll }
    }
}
