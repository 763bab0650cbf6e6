// Lines that the programs which run cases print.
#![tactic(auto)]

use refusals::Refusal;
use std::io;
use tree_records::Origin;

// These words, a number and the end of the line.
pub fn say_number(rt: &impl Print, words: &[u8], number: u64) -> io::Result<()> {
    rt.write_all(words)?;
    println!(rt; "{number}")
}

// These words, and what an operation answered.
pub fn say(rt: &impl Print, words: &[u8], answer: Result<(), Refusal>) -> io::Result<()> {
    rt.write_all(words)?;
    match answer {
        Ok(()) => println!(rt; "accepted"),
        Err(cause) => println!(rt; "refused {cause}"),
    }
}

// These words, and where the tree came from that an operation made, or why it refused.
pub fn say_tree(rt: &impl Print, words: &[u8], answer: Result<Origin, Refusal>) -> io::Result<()> {
    rt.write_all(words)?;
    match answer {
        Ok(origin) => println!(rt; "{origin}"),
        Err(cause) => println!(rt; "refused {cause}"),
    }
}

// The numbers of a listing.
pub fn say_listing(rt: &impl Print, listing: &[u16]) -> io::Result<()> {
    for number in listing {
        print!(rt; " {number}")?;
    }
    println!(rt)
}
