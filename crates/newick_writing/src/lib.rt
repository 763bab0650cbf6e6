// The Newick text of a tree, written from left to right: each function returns the next place. A recursion over the
// nodes, whose children stand in order, puts names, brackets and commas. Where each name starts, an array says.
#![tactic(auto)]

ghost use Rattle.std.specs.Prelude.{◌≡◌, List, [], ◌∷◌, ℕ, ◌+◌, ◌-◌, ◌*◌, ◌≤◌, ◌<◌, length, take, drop};
ghost use Rattle.std.proofs.lemmas.List.Edits.{sets};
ghost use Rattle.trees.specs.Listings.{tree_of};
ghost use Rattle.sheet_rules.specs.Sheets.{name, names_of};
ghost use Rattle.newick_rules.specs.Exporting.{exported};
ghost use Rattle.newick_writing.specs.inner.Writing.{Put, Room, NameFits, FrontFits, PairFits, PartFits, Ready};
ghost use Rattle.newick_writing.specs.inner.Writing.{front, end, pair_text, part_text};

use limits::{MOST_LEAVES, MOST_NUMBERS, MOST_ROWS};
use listings::Row;
use standard_listings::{children, order_rows};

// Puts one byte.
fn put(b: u8, at: usize, text: &mut [u8]) -> usize
    requires { at < length text.old }
    ensures { Put (b ∷ []) at text.old text.new result }
{
    text[at] = b;
    at + 1
}

// Puts so many bytes of the sheet, from a place on, into the text. One by one: they are those of a name, and a copy of
// any length would be a call of the C library's memmove.
fn put_bytes(sheet: &[u8], from: usize, many: usize, at: usize, text: &mut [u8])
    requires { (from + many ≤ length sheet.now) × (at + many ≤ length text.old) }
    ensures { text.new ≡ sets text.old at (take many (drop from sheet.now)) }
{
    for k in 0..many {
        text[at + k] = sheet[from + k];
    }
}

// Puts the name of a leaf.
fn put_name(
    sheet: &[u8],
    starts: &[u16; MOST_LEAVES],
    leaf: usize,
    at: usize,
    text: &mut [u8],
) -> usize
    requires { NameFits sheet.now starts.now leaf at text.old }
    ensures { Put (name sheet.now leaf) at text.old text.new result }
{
    let start = usize::from(starts[leaf]);
    let many = usize::from(sheet[start]);
    put_bytes(sheet, start + 1, many, at, text);
    at + many
}

// Puts the texts of the two children of node v, and a comma between them.
#[cycle(put_pair_put_part)]
fn put_pair(
    sheet: &[u8],
    starts: &[u16; MOST_LEAVES],
    n: usize,
    sorted: &[u16; MOST_NUMBERS],
    v: usize,
    at: usize,
    text: &mut [u8],
) -> usize
    requires { (l : List ℕ) × PairFits sheet.now starts.now n l sorted.now v at text.old }
    ensures { (l : List ℕ) → PairFits sheet.now starts.now n l sorted.now v at
        text.old
        → Put (pair_text sheet.now n l v) at text.old text.new result }
{
    let c: Row = children(n, sorted, v);
    let a = put_part(sheet, starts, n, sorted, c.first, at, text);
    let b = put(b',', a, text);
    put_part(sheet, starts, n, sorted, c.second, b, text)
}

// Puts the text of what stands under number v: a leaf's name, or the two children of a node in brackets.
#[cycle(put_pair_put_part)]
fn put_part(
    sheet: &[u8],
    starts: &[u16; MOST_LEAVES],
    n: usize,
    sorted: &[u16; MOST_NUMBERS],
    v: usize,
    at: usize,
    text: &mut [u8],
) -> usize
    requires { (l : List ℕ) × PartFits sheet.now starts.now n l sorted.now v at text.old }
    ensures { (l : List ℕ) → PartFits sheet.now starts.now n l sorted.now v at
        text.old
        → Put (part_text sheet.now n l v) at text.old text.new result }
{
    if v < n {
        return put_name(sheet, starts, v, at, text);
    }
    let a = put(b'(', at, text);
    let b = put_pair(sheet, starts, n, sorted, v, a, text);
    put(b')', b, text)
}

// Puts how the text of a tree begins: a bracket, leaf 0's name, a comma.
fn put_front(sheet: &[u8], starts: &[u16; MOST_LEAVES], text: &mut [u8]) -> usize
    requires { FrontFits sheet.now starts.now text.old }
    ensures { Put (front sheet.now) 0 text.old text.new result }
{
    let a = put(b'(', 0, text);
    let b = put_name(sheet, starts, 0, a, text);
    put(b',', b, text)
}

// Puts how it ends.
fn put_end(at: usize, text: &mut [u8]) -> usize
    requires { Room end at text.old }
    ensures { Put end at text.old text.new result }
{
    let a = put(b')', at, text);
    put(b';', a, text)
}

// Writes the text of the tree of a listing, with the names of a sheet, from the front on. How many bytes it has. For
// the crates above.
pub fn write_text(
    sheet: &[u8],
    starts: &[u16; MOST_LEAVES],
    n: usize,
    listing: &[u16],
    text: &mut [u8],
) -> usize
    requires { Ready sheet.now starts.now n listing.now text.old }
    ensures { Put (exported (names_of sheet.now) (tree_of n listing.now)) 0
        text.old text.new result }
{
    let mut leasts: [u16; MOST_ROWS] = [0; MOST_ROWS];
    let mut sorted: [u16; MOST_NUMBERS] = [0; MOST_NUMBERS];
    order_rows(n, listing, &mut leasts, &mut sorted);
    let a = put_front(sheet, starts, text);
    let b = put_pair(sheet, starts, n, &sorted, 2 * n - 3, a, text);
    put_end(b, text)
}
