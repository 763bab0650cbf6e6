// Runs the cases of trees and tables that the scope gives and no theorem lists, and some of tree records.
#![tactic(auto)]

ghost use Rattle.std.specs.Prelude.{◌≡◌, length};
ghost use Rattle.limits.specs.Limits.{most_numbers};

use case_lines::{say, say_listing, say_tree};
use limits::Kind;
use std::io;
use tree_records::Origin;

// Whether a number is the one that the scope gives.
fn say_whether(rt: &impl Print, what: &[u8], equal: bool) -> io::Result<()> {
    rt.write_all(what)?;
    println!(rt; "{}", if equal { "yes" } else { "no" })
}

// The two gaps that the scope gives.
fn say_gaps(rt: &impl Print, gaps: &[i64; 25]) -> io::Result<()> {
    say_whether(rt, b"-3 at (0,1): ", gaps[1] == -3)?;
    say_whether(rt, b"0 at (0,3): ", gaps[3] == 0)
}

// The gap of the zero table against P7's tree.
fn gap_of_zeros(rt: &impl Print) -> io::Result<()> {
    let listing: [u16; 6] = [3, 4, 2, 5, 1, 6];
    let mut gaps = [0i64; 25];
    say(
        rt,
        b"gap of the zero table against 3 4 2 5 1 6: ",
        gaps::gap(Kind::Counts, 5, &[0u32; 25], &listing, &mut gaps),
    )?;
    say_gaps(rt, &gaps)
}

// The rows of the longest listing and its last leaf, as numbers of a listing's width.
const ROWS: u16 = limits::MOST_ROWS as u16;

const LAST_LEAF: u16 = ROWS + 1;

// A tree of the most leaves: the node of each row takes the leaf that comes next.
fn comb() -> [u16; limits::MOST_NUMBERS]
    ensures { length result ≡ most_numbers }
{
    let mut listing = [0u16; limits::MOST_NUMBERS];
    listing[0] = 1;
    listing[1] = 2;
    for k in 1..ROWS {
        let at = 2 * usize::from(k);
        listing[at] = k + 2;
        listing[at + 1] = k + LAST_LEAF;
    }
    listing
}

// Check, table and rebuild, with this leaf count, and a listing and a table that are right for the most leaves.
fn leaf_count(rt: &impl Print, what: &[u8], n: usize) -> io::Result<()> {
    let listing = comb();
    let mut cells = [0u32; limits::MOST_CELLS];
    let mut rebuilt = [0u16; limits::MOST_NUMBERS];
    print!(rt; "check, table and rebuild, ")?;
    say(rt, what, listings::check(n, &listing))?;
    say(rt, b"", tree_tables::table(n, &listing, &mut cells))?;
    say_tree(
        rt,
        b"",
        record_operations::rebuild(Kind::Counts, n, &cells, &mut rebuilt),
    )
}

fn leaf_counts(rt: &impl Print) -> io::Result<()> {
    leaf_count(rt, b"2 leaves:\n", 2)?;
    leaf_count(rt, b"one leaf too many:\n", limits::MOST_LEAVES + 1)?;
    leaf_count(rt, b"the most leaves:\n", limits::MOST_LEAVES)
}

// A record of five leaves restandardised.
fn restandardise(rt: &impl Print, words: &[u8], origin: Origin, listing: &[u16]) -> io::Result<()> {
    let mut standard = [9u16; 6];
    say_tree(
        rt,
        words,
        record_operations::restandardise(5, origin, listing, &mut standard),
    )?;
    say_listing(rt, &standard)
}

// P7's tree as another listing, lent and then restandardised, whatever its origin; and a listing that breaks the rules.
fn records(rt: &impl Print) -> io::Result<()> {
    let listing: [u16; 6] = [4, 3, 5, 2, 6, 1];
    say_tree(
        rt,
        b"lend 4 3 5 2 6 1: ",
        record_operations::lend(5, &listing),
    )?;
    restandardise(rt, b"restandardise it, listed: ", Origin::Listed, &listing)?;
    restandardise(
        rt,
        b"restandardise it, imported: ",
        Origin::Imported,
        &listing,
    )?;
    restandardise(
        rt,
        b"restandardise it, rebuilt: ",
        Origin::Rebuilt,
        &listing,
    )?;
    restandardise(
        rt,
        b"restandardise 4 3 5 2 6 5, rebuilt: ",
        Origin::Rebuilt,
        &[4, 3, 5, 2, 6, 5],
    )
}

fn main(rt: HostRuntime) -> io::Result<()> {
    gap_of_zeros(&rt)?;
    leaf_counts(&rt)?;
    records(&rt)
}
