// An index of the names of a sheet, so that a name is looked up by few comparisons: chains of leaves by the hashes of
// their names. For the crates that judge names and look them up.
#![tactic(auto)]

ghost use Rattle.std.specs.Prelude.{◌≡◌, not, ◌+◌, ◌%◌, ◌<◌, ◌≤◌, length, position};
ghost use Rattle.limits.specs.Limits.{most_leaves};
ghost use Rattle.sheet_rules.specs.Sheets.{name_at, next_name, name_start, name, same, longest_sheet};
ghost use Rattle.sheet_rules.specs.Operations.{repeated};
ghost use Rattle.name_index.specs.inner.Hashes.{hashes, hash_step, hash_of, buckets};
ghost use Rattle.name_index.specs.inner.Indexes.{Indexes, FirstNames, first_names, names_in, with_next, StartsOf};

use limits::MOST_LEAVES;
use std::marker::Model;

mod compare;

// How many hashes there are.
pub const HASHES: u64 = 4294967296;

// Two buckets a leaf, so that most hold one name at most.
pub const BUCKETS: usize = 2 * MOST_LEAVES;

// The index of the first names of a sheet, no two of them equal: where the chain of each bucket begins, where it goes
// on from each leaf, and where each name starts. A chain has 1 + a leaf, and 0 where it ends. Two arrays of the leaves,
// and not one of pairs: export is lent the second alone.
#[derive(Drop)]
pub struct NameIndex<'a> {
    sheet: &'a [u8],
    many: usize,
    heads: [u16; BUCKETS],
    before: [u16; MOST_LEAVES],
    starts: [u16; MOST_LEAVES],
}

// A clause sees which names it has: the sheet, and how many.
impl<'a> Model for NameIndex<'a> {
    ghost Value = { FirstNames };

    ghost view = { λ x. first_names x.sheet.now x.many };

    ghost invariant = { λ x. (length x.sheet.now ≤ longest_sheet)
        × Indexes x.sheet.now x.many x.heads x.before x.starts };
}

impl<'a> NameIndex<'a> {
    // The index of no names of a sheet. For the crates above.
    pub fn new(sheet: &'a [u8]) -> Self
        requires { length sheet.now ≤ longest_sheet }
        ensures { result ≡ first_names sheet.now 0 }
    {
        NameIndex {
            sheet,
            many: 0,
            heads: [0; BUCKETS],
            before: [0; MOST_LEAVES],
            starts: [0; MOST_LEAVES],
        }
    }

    // How many names it has. For the crates above.
    pub fn len(&self) -> usize
        ensures { result ≡ self.now.many }
    {
        self.many
    }

    // The leaf whose name is this word, which has this hash. For the crates above.
    pub fn find(&self, word: &[u8], hash: u64) -> Option<usize>
        requires { hash ≡ hash_of word.now }
        ensures { result ≡ position (same word.now) (names_in self.now) }
    {
        // A while: each step goes on to where the chain points.
        let mut chain = usize::from(self.heads[bucket(hash)]);
        while chain != 0 {
            let i = chain - 1;
            if compare::same(word, name_at(self.sheet, usize::from(self.starts[i]))) {
                return Some(i);
            }
            chain = usize::from(self.before[i]);
        }
        None
    }

    // Takes in the next name, which starts at a place and has this hash, where it equals none of those before it; and
    // whether it does so. For the crates above.
    pub fn add(&mut self, at: usize, hash: u64) -> bool
        requires { (self.old.many < most_leaves) × (at ≡ name_start self.old.sheet self.old.many)
            × (hash ≡ hash_of (name self.old.sheet self.old.many))
            × (next_name self.old.sheet at ≤ length self.old.sheet) }
        ensures { (result ≡ not (repeated self.old.sheet self.old.many)) × (self.new ≡ with_next result self.old) }
    {
        if self.find(name_at(self.sheet, at), hash).is_some() {
            return false;
        }
        let i = self.many;
        let b = bucket(hash);
        self.before[i] = self.heads[b];
        self.starts[i] = at as u16;
        self.heads[b] = (i + 1) as u16;
        self.many += 1;
        true
    }

    // Where the name of a leaf starts, with its length byte. For the crates above.
    pub fn start(&self, leaf: usize) -> usize
        requires { leaf < self.now.many }
        ensures { result ≡ name_start self.now.sheet leaf }
    {
        let starts = &self.starts;
        usize::from(starts[leaf])
    }

    // Where all of them start. For the crates above.
    pub fn starts(&self) -> &[u16; MOST_LEAVES]
        ensures { StartsOf self.now result.now }
    {
        &self.starts
    }

    // The name of a leaf. For the crates above.
    pub fn name(&self, leaf: usize) -> &'a [u8]
        requires { leaf < self.now.many }
        ensures { result.now ≡ name self.now.sheet leaf }
    {
        name_at(self.sheet, usize::from(self.starts[leaf]))
    }
}

// A hash, one byte later. The hash of no bytes is 0. For the crates above.
pub fn hash_byte(h: u64, b: u8) -> u64
    requires { h < hashes }
    ensures { (result ≡ hash_step h b) × (result < hashes) }
{
    (31 * h + u64::from(b)) % HASHES
}

// The bucket that a hash stands for.
fn bucket(hash: u64) -> usize
    ensures { (result ≡ hash % buckets) × (result < buckets) }
{
    hash as usize % BUCKETS
}

// The name whose length byte stands at a place of the sheet.
fn name_at(sheet: &[u8], at: usize) -> &[u8]
    requires { next_name sheet.now at ≤ length sheet.now }
    ensures { result.now ≡ name_at sheet.now at }
{
    let from = at + 1;
    let to = from + usize::from(sheet[at]);
    &sheet[from..to]
}
