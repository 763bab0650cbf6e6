// Reads a strain sheet from standard input and prints its tree: the leaf count, one line a row (node, first child,
// second child), and `end`. Where no tree has the sheet's table, it prints a guess: `guess` before the leaf count, and
// the total gap on its own line before `end`. A sheet that is refused gets `refused` and the number.
#![tactic(auto)]

ghost use Rattle.std.specs.Prelude.{◌≡◌, ◌<◌, ◌≤◌, IfOk, length, take};
ghost use Rattle.std.specs.Io.KnownBytes.{Consumes, IsAtEnd};
ghost use Rattle.limits.specs.Limits.{most_leaves};

use guesses::Found;
use std::io;
use std::io::Read;
use tree_records::Origin;

// One byte more than the longest sheet has, so that a longer input is refused and not cut.
const INPUT: usize = sheets::LONGEST_SHEET + 1;

// The numbers of the longest listing.
const LISTING: usize = limits::MOST_NUMBERS;

// Fills the buffer from its start, over as many reads as that takes, until it is full or the input ends; how many bytes
// it holds then.
fn read_full<R: Read>(input: &mut R, buffer: &mut [u8]) -> io::Result<usize>
    ensures bound { IfOk result (λ got. got ≤ length buffer.new) }
    ensures bytes { IfOk result (λ got. Consumes (R.remaining input.old) (R.remaining input.new)
        (take got buffer.new)) }
    ensures end { IfOk result (λ got. got < length buffer.new
        → IsAtEnd (R.remaining input.new)) }
{
    let mut got: usize = 0;
    // A while: each read says how far it goes.
    while got < buffer.len() {
        let many = input.read(&mut buffer[got..])?;
        if many == 0 {
            return Ok(got);
        }
        got += many;
    }
    Ok(got)
}

// The rows of a listing of n leaves.
fn print_rows(rt: &impl Print, n: usize, listing: &[u16; LISTING]) -> io::Result<()>
    requires { n ≤ most_leaves }
{
    for k in 0..n.saturating_sub(2) {
        println!(rt; "{} {} {}", n + k, listing[2 * k], listing[2 * k + 1])?;
    }
    Ok(())
}

// The leaf count, after a word for where the tree came from.
fn print_count(rt: &impl Print, origin: Origin, n: usize) -> io::Result<()> {
    match origin {
        Origin::Guessed => println!(rt; "guess {n}"),
        _ => println!(rt; "leaves {n}"),
    }
}

// The total gap of a guess.
fn print_total(rt: &impl Print, origin: Origin, total: u64) -> io::Result<()> {
    match origin {
        Origin::Guessed => println!(rt; "{total}"),
        _ => Ok(()),
    }
}

fn main(rt: HostRuntime) -> io::Result<()> {
    let mut input = [0u8; INPUT];
    let got = read_full(&mut rt.stdin(), &mut input)?;
    let mut listing = [0u16; LISTING];
    let answer = guesses::guess_sheet(&input[..got], &mut listing);
    let Ok(Found { origin, total }) = answer else {
        let number = replies::answer_number(answer);
        return println!(rt; "refused {number}");
    };
    let n = sheets::leaf_count_of(&input[..got]);
    print_count(&rt, origin, n)?;
    print_rows(&rt, n, &listing)?;
    print_total(&rt, origin, total)?;
    println!(rt; "end")
}
