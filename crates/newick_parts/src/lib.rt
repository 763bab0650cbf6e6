// What a bracket or a comma of a Newick text makes of what import keeps while it reads. For the crate of import.
#![tactic(auto)]

ghost use Rattle.std.specs.Prelude.{◌≡◌};
ghost use Rattle.newick_parts.specs.inner.Keeping.{first_kept};
ghost use Rattle.newick_parts.specs.inner.Parts.{PartFits, PartMade, PartEnds, PartAdded};
ghost use Rattle.newick_parts.specs.inner.Parts.{BracketClosed, Comes, Came, goes_on_at, closes_at};

use limits::MOST_LEAVES;
use rerooted_rows::Rerooting;

// What is kept of the bytes so far: the number of the last drawing; whether all nodes are binary so far, apart from a
// three-way top, and all names known and new; how many leaves are named; for each open bracket how many parts it has,
// and their number; the rows.
#[derive(Clone, Copy)]
pub struct Kept {
    pub last: u16,
    pub binary: bool,
    pub named: bool,
    pub many: usize,
    pub parts: [u8; MOST_LEAVES],
    pub numbers: [u16; MOST_LEAVES],
    pub joined: Rerooting,
}

// Whether a bracket at a place may have one more part than c, and another behind it: the top, at place 0, has three at
// most, and any other two.
fn may_go_on(place: usize, c: u8) -> bool
    ensures { result ≡ goes_on_at place c }
{
    c < if place == 0 { 2 } else { 1 }
}

// Whether it may close with one more part than c.
fn may_close(place: usize, c: u8) -> bool
    ensures { result ≡ closes_at place c }
{
    if place == 0 { 1 <= c && c <= 2 } else { c == 1 }
}

impl Kept {
    // Before any byte. For the crates above.
    pub fn new() -> Self
        ensures { result ≡ first_kept }
    {
        Kept {
            last: 0,
            binary: true,
            named: true,
            many: 0,
            parts: [0; MOST_LEAVES],
            numbers: [0; MOST_LEAVES],
            joined: Rerooting::new(),
        }
    }

    // The last drawing becomes one more part of the bracket at a place, which has c parts so far.
    fn part(&mut self, n: usize, place: usize, c: u8)
        requires { PartFits n place c self.old }
        ensures { PartMade n place c self.old self.new }
    {
        if c == 0 {
            self.numbers[place] = self.last;
        } else {
            self.numbers[place] = self.joined.join(n, self.numbers[place], self.last);
        }
    }

    // A comma: the last drawing is a part of the innermost bracket, and another comes behind it.
    fn comma(&mut self, n: usize, depth: usize)
        requires { PartEnds n depth self.old }
        ensures { PartAdded n depth self.old self.new }
    {
        if !self.binary {
            return;
        }
        let place = depth - 1;
        let c = self.parts[place];
        if !may_go_on(place, c) {
            self.binary = false;
            return;
        }
        self.parts[place] = c + 1;
        if self.named {
            self.part(n, place, c);
        }
    }

    // A closing bracket: the last drawing is the last part of the innermost bracket, which is then the last drawing.
    fn close(&mut self, n: usize, depth: usize)
        requires { PartEnds n depth self.old }
        ensures { BracketClosed n depth self.old self.new }
    {
        if !self.binary {
            return;
        }
        let place = depth - 1;
        let c = self.parts[place];
        if !may_close(place, c) {
            self.binary = false;
            return;
        }
        if self.named {
            self.part(n, place, c);
            self.last = self.numbers[place];
        }
    }

    // What a byte makes of it, where so many brackets are open before. For the crates above.
    pub fn bracket(&mut self, b: u8, n: usize, depth: usize)
        requires { Comes b n depth self.old }
        ensures { Came b n depth self.old self.new }
    {
        match b {
            b'(' => self.parts[depth] = 0,
            b',' => self.comma(n, depth),
            b')' => self.close(n, depth),
            _ => {}
        }
    }
}
