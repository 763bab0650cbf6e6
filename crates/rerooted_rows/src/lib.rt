// The rows of a tree rerooted at leaf 0, written while its subtrees are joined: what lies beside leaf 0's way to the
// top waits in a chain, of which the last rows are made.
#![tactic(auto)]

ghost use Rattle.std.specs.Prelude.{◌≡◌};
ghost use Rattle.std.specs.Borrow.{sem};
ghost use Rattle.rerooted_rows.specs.inner.Arrays.{none_joined, JoinFits, Joins, with_chain, ChainFits};
ghost use Rattle.rerooted_rows.specs.inner.Lending.{LeavesFinished};

use limits::{MOST_LEAVES, MOST_NUMBERS};

// The rows so far, and the chain; how many rows and numbers these are.
#[derive(Clone, Copy)]
pub struct Rerooting {
    pub rows: [u16; MOST_NUMBERS],
    pub made: usize,
    pub chain: [u16; MOST_LEAVES],
    pub chained: usize,
}

impl Rerooting {
    // Nothing is joined. For the crates above.
    pub fn new() -> Self
        ensures { result ≡ none_joined }
    {
        Rerooting {
            rows: [0; MOST_NUMBERS],
            made: 0,
            chain: [0; MOST_LEAVES],
            chained: 0,
        }
    }

    // Joins the subtrees a and b: by a row; but one beside leaf 0's goes to the chain. The number of what they make: 0
    // where it has leaf 0. For the crates above.
    pub fn join(&mut self, n: usize, a: u16, b: u16) -> u16
        requires { JoinFits n a b self.old }
        ensures { Joins n a b self.old self.new result }
    {
        let made = self.made;
        let chained = self.chained;
        match (a, b) {
            (0, other) | (other, 0) => {
                self.chain[chained] = other;
                self.chained = chained + 1;
                0
            }
            _ => {
                self.rows[2 * made] = a;
                self.rows[2 * made + 1] = b;
                self.made = made + 1;
                (n + made) as u16
            }
        }
    }

    // Writes the rows that the chain makes behind the others: then all of them are a listing, which is lent. Nothing
    // else changes. For the crates above.
    pub fn finish(&mut self, n: usize) -> &[u16]
        requires { ChainFits n self.old }
        ensures* after { sem 𝓛 (LeavesFinished n self.entry) }
        ensures rows { result.now ≡ with_chain n self.old }
    {
        let last = self.chained - 1;
        let end = self.made + last;
        let mut above = self.chain[last];
        for r in self.made..end {
            self.rows[2 * r] = above;
            self.rows[2 * r + 1] = self.chain[end - r - 1];
            above = (n + r) as u16;
        }
        &self.rows[..2 * end]
    }
}
