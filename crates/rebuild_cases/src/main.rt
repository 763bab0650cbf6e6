// Runs both rebuilds on P7's table and on tables and merges like it; and the guess on these, on a table with a tie, and
// on a poll's.
#![tactic(auto)]

use case_lines::{say_listing, say_number, say_tree};
use guesses::Found;
use limits::Kind;
use refusals::Refusal;
use std::io;
use tree_records::Origin;

// P7's table.
const FIVE: [u32; 25] = [
    0, 3, 1, 0, 0, 3, 0, 1, 0, 0, 1, 1, 0, 1, 1, 0, 0, 1, 0, 3, 0, 0, 1, 3, 0,
];

// A table of five leaves by our own rebuild.
fn rebuild(rt: &impl Print, words: &[u8], cells: &[u32]) -> io::Result<()> {
    let mut listing = [9u16; 6];
    let answer: Result<Origin, Refusal> = record_operations::rebuild(
        Kind::Counts,
        5,
        cells,
        &mut listing,
    );
    say_tree(rt, words, answer)?;
    say_listing(rt, &listing)
}

// P7's table; and with one cell and its mirror changed: no tree has it, and the buffer is as it was.
fn rebuilt(rt: &impl Print) -> io::Result<()> {
    let mut cells = FIVE;
    rebuild(rt, b"rebuild of five leaves: ", &cells)?;
    cells[1] = 2;
    cells[5] = 2;
    rebuild(rt, b"rebuild with one count changed: ", &cells)
}

// A table of five leaves guided by these merges.
fn guide(rt: &impl Print, words: &[u8], cells: &[u32], merges: &[u16]) -> io::Result<()> {
    let mut listing = [9u16; 6];
    let answer: Result<Origin, Refusal> = record_operations::rebuild_guided(
        Kind::Counts,
        5,
        cells,
        merges,
        &mut listing,
    );
    say_tree(rt, words, answer)?;
    say_listing(rt, &listing)
}

// Guided by eligible merges, in two orders.
fn guided(rt: &impl Print, cells: &[u32]) -> io::Result<()> {
    guide(
        rt,
        b"guided by 3 4, 0 1, 2 3, 0 2: ",
        cells,
        &[3, 4, 0, 1, 2, 3, 0, 2],
    )?;
    guide(
        rt,
        b"guided by 4 3, 1 0, 4 2, 1 4: ",
        cells,
        &[4, 3, 1, 0, 4, 2, 1, 4],
    )
}

// Guided by proposals that are refused.
fn refused_proposals(rt: &impl Print, cells: &[u32]) -> io::Result<()> {
    guide(
        rt,
        b"guided by 3 4, 3 4, 2 3, 0 2: ",
        cells,
        &[3, 4, 3, 4, 2, 3, 0, 2],
    )?;
    guide(rt, b"guided from 0 2: ", cells, &[0, 2, 3, 4, 0, 1, 0, 3])
}

// A guess that is accepted, with its total gap; and one that is refused.
fn say_total(rt: &impl Print, words: &[u8], origin: Origin, total: u64) -> io::Result<()> {
    say_tree(rt, words, Ok(origin))?;
    say_number(rt, b" with the total gap ", total)
}

// What the guess answers.
fn say_guess(rt: &impl Print, words: &[u8], answer: Result<Found, Refusal>) -> io::Result<()> {
    match answer {
        Ok(Found { origin, total }) => say_total(rt, words, origin, total),
        Err(cause) => say_tree(rt, words, Err(cause)),
    }
}

// The guess of a table of five leaves.
fn guess(rt: &impl Print, words: &[u8], kind: Kind, cells: &[u32]) -> io::Result<()> {
    let mut listing = [9u16; 7];
    say_guess(rt, words, guesses::guess(kind, 5, cells, &mut listing))?;
    say_listing(rt, &listing)
}

// Three leaves, whose tree is known: the total gap is the sum of the cells. A poll has four leaves or more.
fn guessed_of_three(rt: &impl Print) -> io::Result<()> {
    let mut listing = [9u16; 2];
    let cells: [u32; 9] = [0, 1, 2, 1, 0, 3, 2, 3, 0];
    say_guess(
        rt,
        b"guess of three leaves: ",
        guesses::guess(Kind::Counts, 3, &cells, &mut listing),
    )?;
    say_listing(rt, &listing)?;
    let mut untouched = [9u16; 2];
    say_guess(
        rt,
        b"guess of three leaves of a poll: ",
        guesses::guess(Kind::Poll, 3, &cells, &mut untouched),
    )?;
    say_listing(rt, &untouched)
}

// Four leaves with the cells (0, 2) and (1, 2) of 1: these pairs tie, and 0 2 is merged.
fn guessed_of_four(rt: &impl Print) -> io::Result<()> {
    let mut listing = [9u16; 4];
    let cells: [u32; 16] = [0, 0, 1, 0, 0, 0, 1, 0, 1, 1, 0, 0, 0, 0, 0, 0];
    say_guess(
        rt,
        b"guess of four leaves with a tie: ",
        guesses::guess(Kind::Counts, 4, &cells, &mut listing),
    )?;
    say_listing(rt, &listing)
}

// P7's table, of counts and said to be a poll's; with one cell and its mirror changed, and then one alone; all cells 0.
fn guessed_of_five(rt: &impl Print) -> io::Result<()> {
    let mut cells = FIVE;
    guess(rt, b"guess of five leaves: ", Kind::Counts, &cells)?;
    guess(rt, b"guess of the same of a poll: ", Kind::Poll, &cells)?;
    cells[1] = 2;
    cells[5] = 2;
    guess(rt, b"guess with one count changed: ", Kind::Counts, &cells)?;
    cells[5] = 3;
    guess(rt, b"guess with unequal halves: ", Kind::Counts, &cells)?;
    let zeros = [0u32; 25];
    guess(
        rt,
        b"guess of five leaves, all cells 0: ",
        Kind::Counts,
        &zeros,
    )
}

fn main(rt: HostRuntime) -> io::Result<()> {
    rebuilt(&rt)?;
    let cells = FIVE;
    guided(&rt, &cells)?;
    refused_proposals(&rt, &cells)?;
    guessed_of_three(&rt)?;
    guessed_of_four(&rt)?;
    guessed_of_five(&rt)
}
