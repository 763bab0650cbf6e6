// Runs polls in which quartets are tied: of four leaves with each code, and of five leaves.
#![tactic(auto)]

ghost use Rattle.std.specs.Prelude.{◌≤◌, IfOk};

use case_lines::{say, say_number};
use poll_rules::Record;
use refusals::Refusal;
use std::io;

// A poll of n leaves with the first so many of these records.
fn poll_first(n: usize, records: [Record; 5], many: usize, out: &mut [u32]) -> Result<(), Refusal>
    requires { many ≤ 5 }
{
    polls::poll(n, &records[..many], out)
}

// Says cell k of a table of n leaves where it stands above the diagonal, and hands it on; 0 for the others.
fn say_above(rt: &impl Print, n: usize, k: usize, cell: u32) -> io::Result<u64>
    ensures { IfOk result (λ said. said ≤ 4294967295) }
{
    if n == 0 {
        return Ok(0);
    }
    if k % n <= k / n {
        return Ok(0);
    }
    print!(rt; " {cell}")?;
    Ok(cell as u64)
}

// The cells above the diagonal of a table of n leaves, 5 at most, and their total.
fn say_cells(rt: &impl Print, n: usize, cells: &[u32; 25]) -> io::Result<()> {
    let mut total: u64 = 0;
    for (k, cell) in cells.iter().enumerate() {
        total += say_above(rt, n, k, *cell)?;
    }
    say_number(rt, b", total ", total)
}

// What is answered to a poll of n leaves with the first so many of these records, and what is in the buffer then.
fn show(rt: &impl Print, n: usize, records: [Record; 5], many: usize) -> io::Result<()>
    requires { many ≤ 5 }
{
    let mut cells = [9u32; 25];
    say(rt, b"", poll_first(n, records, many, &mut cells))?;
    say_cells(rt, n, &cells)
}

fn record_of(a: u8, b: u8, c: u8, d: u8, code: u8) -> Record {
    Record { a, b, c, d, code }
}

// The quartets of five leaves with these codes; the first is that of four leaves.
fn quartets(p: u8, q: u8, r: u8, s: u8, t: u8) -> [Record; 5] {
    [
        record_of(0, 1, 2, 3, p),
        record_of(0, 1, 2, 4, q),
        record_of(0, 1, 3, 4, r),
        record_of(0, 2, 3, 4, s),
        record_of(1, 2, 3, 4, t),
    ]
}

// The poll of four leaves with this code.
fn poll_of_four(rt: &impl Print, code: u8) -> io::Result<()> {
    print!(rt; "four leaves, code {code}: ")?;
    show(rt, 4, quartets(code, 0, 0, 0, 0), 1)
}

fn polls_of_five(rt: &impl Print) -> io::Result<()> {
    print!(rt; "five leaves, codes 0 3 4 5 6: ")?;
    show(rt, 5, quartets(0, 3, 4, 5, 6), 5)?;
    print!(rt; "five leaves, codes 1 2 3 7 8: ")?;
    show(rt, 5, quartets(1, 2, 3, 7, 8), 5)
}

fn main(rt: HostRuntime) -> io::Result<()> {
    poll_of_four(&rt, 0)?;
    poll_of_four(&rt, 1)?;
    poll_of_four(&rt, 2)?;
    poll_of_four(&rt, 3)?;
    poll_of_four(&rt, 4)?;
    poll_of_four(&rt, 5)?;
    poll_of_four(&rt, 6)?;
    poll_of_four(&rt, 7)?;
    polls_of_five(&rt)
}
