// Where a tree came from, and what an operation answers that makes a tree record: leaf count, listing and origin.
#![tactic(auto)]

ghost use Rattle.std.specs.Prelude.{◌≡◌};
ghost use Rattle.tree_records.specs.Origins.{origin_number, origin_of};
ghost use Rattle.tree_records.specs.inner.Outcomes.{marked_outcome};

use refusals::Refusal;
use replies::Figured;
use std::fmt;

// Where a tree came from, in the order of the numbers that C sees.
#[derive(Clone, Copy, Debug, PartialEq, Eq)]
pub enum Origin {
    // 0: a rebuild made it, and it has the table that the rebuild was given
    Rebuilt,
    // 1: its listing was lent
    Listed,
    // 2: a text was read, which draws it
    Imported,
    // 3: a rebuild proposes it for a table that no tree has
    Guessed,
    // 4: a strain was grafted on it or pruned from it
    Grafted,
}

// The number of an origin.
impl From<Origin> for usize {
    ghost from_gives = { λ origin number. number ≡ origin_number origin };

    fn from(origin: Origin) -> usize {
        match origin {
            Origin::Rebuilt => 0,
            Origin::Listed => 1,
            Origin::Imported => 2,
            Origin::Guessed => 3,
            Origin::Grafted => 4,
        }
    }
}

// The origin that a caller from C names by its number; a number above 4 is taken as listed.
impl From<u32> for Origin {
    ghost from_gives = { λ number origin. origin ≡ origin_of number };

    fn from(number: u32) -> Origin {
        // An `if` for each number: of a `match` on numbers the proof learns nothing in the last arm.
        if number == 0 {
            return Origin::Rebuilt;
        }
        if number == 2 {
            return Origin::Imported;
        }
        if number == 3 {
            return Origin::Guessed;
        }
        if number == 4 {
            return Origin::Grafted;
        }
        Origin::Listed
    }
}

impl fmt::Display for Origin {
    fn fmt<W: fmt::Write>(&self, f: &mut fmt::Formatter<W>) -> fmt::Result {
        f.write_str(match self {
            Origin::Rebuilt => "rebuilt",
            Origin::Listed => "listed",
            Origin::Imported => "imported",
            Origin::Guessed => "guessed",
            Origin::Grafted => "grafted",
        })
    }
}

// The reply of a call that makes a tree record tells the origin's number.
impl Figured for Origin {
    ghost told = { origin_number };

    fn figure(self) -> usize {
        usize::from(self)
    }
}

// The answer of an operation whose result is the listing of a tree of this origin.
pub fn mark(origin: Origin, answer: Result<(), Refusal>) -> Result<Origin, Refusal>
    ensures { result ≡ marked_outcome origin answer }
{
    answer?;
    Ok(origin)
}
