// Runs of bytes of a Newick text that are read in one go: those of a name, those of a length, blanks. For the crate of
// import.
#![tactic(auto)]

ghost use Rattle.std.specs.Prelude.{◌≡◌, ◌≤◌, ◌<◌, length};
ghost use Rattle.name_index.specs.inner.Hashes.{hashes};
ghost use Rattle.newick_states.specs.inner.States.{number_of};
ghost use Rattle.newick_runs.specs.inner.Runs.{stays, Passed, Named, Ran};

use name_checks::is_name_byte;
use name_index::hash_byte;
use newick_states::{State, is_blank, is_length_byte};

// The byte behind a run, and the hash of the name that it may be in.
#[derive(Clone, Copy)]
pub struct Run {
    pub to: usize,
    pub hash: u64,
}

// Whether a byte leaves the reader where it is, in a state that is in no name.
#[tactic(auto, unfolding(crate::specs::inner::Runs::stays))]
fn keeps_state(state: State, b: u8) -> bool
    ensures { result ≡ stays (number_of state) b }
{
    match state {
        State::InLength => is_length_byte(b),
        State::InName | State::AtLength => false,
        _ => is_blank(b),
    }
}

// The first byte from k on that does not.
fn skip(text: &[u8], state: State, k: usize) -> usize
    requires { k ≤ length text.now }
    ensures { Passed (stays (number_of state)) text.now k result }
{
    for j in k..text.len() {
        if !keeps_state(state, text[j]) {
            return j;
        }
    }
    text.len()
}

// The first byte from k on that is no part of a name, and the name's hash behind the bytes before it.
fn skip_name(text: &[u8], k: usize, hash: u64) -> Run
    requires { (k ≤ length text.now) × (hash < hashes) }
    ensures { Named text.now k hash result }
{
    let mut h = hash;
    for j in k..text.len() {
        let b = text[j];
        if !is_name_byte(b) {
            return Run { to: j, hash: h };
        }
        h = hash_byte(h, b);
    }
    Run {
        to: text.len(),
        hash: h,
    }
}

// Where the run from byte k on ends, in this state. For the crates above.
pub fn run_on(text: &[u8], state: State, k: usize, hash: u64) -> Run
    requires { (k ≤ length text.now) × (hash < hashes) }
    ensures { Ran (number_of state) text.now k hash result }
{
    match state {
        State::InName => skip_name(text, k, hash),
        _ => Run {
            to: skip(text, state, k),
            hash,
        },
    }
}
