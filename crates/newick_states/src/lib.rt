// The reader of Newick text, a byte at a time: the state behind a byte, and how many brackets are open behind it.
#![tactic(auto)]

ghost use Rattle.std.specs.Prelude.{◌≡◌, false, ◌≤◌};
ghost use Rattle.newick_rules.specs.Reader.{blank, length_byte};
ghost use Rattle.newick_rules.specs.Importing.{deepest};
ghost use Rattle.newick_reading.specs.inner.Moves.{followed_state, due_state, next_state, next_depth};
ghost use Rattle.newick_states.specs.inner.Continuing.{continues};
ghost use Rattle.newick_states.specs.inner.States.{number_of, number_behind};

use limits::MOST_LEAVES;
use name_checks::is_name_byte;

// What may come next. In specs/ the states have numbers, in this order.
#[derive(Clone, Copy, PartialEq, Eq)]
pub enum State {
    // A name or an opening bracket.
    Due,
    // More of a name.
    InName,
    // What follows a name or a bracket: a length may, or it has been.
    Behind,
    BehindLength,
    // The first byte of a length.
    AtLength,
    // More of a length.
    InLength,
    // Blanks, behind the semicolon.
    Ended,
}

// So many brackets may be open.
pub const DEEPEST: usize = MOST_LEAVES - 1;

// Tab, line feed, carriage return, space.
#[tactic(auto, unfolding(newick_rules::specs::Reader::blank))]
pub fn is_blank(b: u8) -> bool
    ensures { result ≡ blank b }
{
    b == b' ' || b == b'\n' || b == b'\r' || b == b'\t'
}

// The bytes of a length, as a set: bit k stands for byte b'+' + k.
const LENGTH_BYTES: u64 = 0x0400000004007fed;

// A byte that a length may have: a digit, a full stop, a sign, E or e.
#[tactic(auto, using(crate::proofs::LengthBytes::length_outside))]
pub fn is_length_byte(b: u8) -> bool
    ensures { result ≡ length_byte b }
{
    b'+' <= b && b <= b'e' && (LENGTH_BYTES >> (b - b'+')) & 1 == 1
}

// The state behind a byte that follows a name, a bracket or a length; a length may follow, or not.
#[tactic(auto, unfolding(newick_reading::specs::inner::Moves::followed_state, newick_rules::specs::Reader::blank))]
fn followed(depth: usize, may: bool, b: u8) -> Option<State>
    ensures { number_behind result ≡ followed_state depth may b }
{
    match b {
        b',' => (depth != 0).then_some(State::Due),
        b')' => (depth != 0).then_some(State::Behind),
        b':' => may.then_some(State::AtLength),
        b';' => (depth == 0).then_some(State::Ended),
        _ if is_blank(b) => Some(if may {
            State::Behind
        } else {
            State::BehindLength
        }),
        _ => None,
    }
}

// The state behind a byte where a name or an opening bracket is due.
#[tactic(auto, unfolding(newick_reading::specs::inner::Moves::due_state, newick_rules::specs::Reader::blank))]
fn entered(depth: usize, b: u8) -> Option<State>
    ensures { number_behind result ≡ due_state deepest depth b }
{
    match b {
        b'(' if depth < DEEPEST => Some(State::Due),
        _ if is_blank(b) => Some(State::Due),
        _ if depth != 0 && is_name_byte(b) => Some(State::InName),
        _ => None,
    }
}

// The state behind a byte that does not continue a name or a length.
#[tactic(auto, unfolding(newick_reading::specs::inner::Moves::next_state, crate::specs::inner::Continuing::continues))]
fn moved(state: State, depth: usize, b: u8) -> Option<State>
    requires { continues (number_of state) b ≡ false }
    ensures { number_behind result ≡ next_state deepest (number_of state) depth b }
{
    match state {
        State::Due => entered(depth, b),
        State::InName | State::Behind => followed(depth, true, b),
        State::BehindLength | State::InLength => followed(depth, false, b),
        State::AtLength => is_length_byte(b).then_some(State::InLength),
        State::Ended => is_blank(b).then_some(State::Ended),
    }
}

// The state behind a byte, by the state before it and how many brackets are open; none behind a byte that breaks the
// grammar, or nests too deep. Most bytes of a text continue a name or a length: they are judged here, and all others in
// a function of their own, so that this one is small enough for the compiler to put it into a caller's loop.
#[tactic(auto, unfolding(newick_reading::specs::inner::Moves::next_state, crate::specs::inner::Continuing::continues))]
pub fn next_state(state: State, depth: usize, b: u8) -> Option<State>
    ensures { number_behind result ≡ next_state deepest (number_of state) depth b }
{
    match state {
        State::InName if is_name_byte(b) => Some(State::InName),
        State::InLength if is_length_byte(b) => Some(State::InLength),
        _ => moved(state, depth, b),
    }
}

// How many brackets are open behind a byte that does not break the grammar. For the crates above.
#[tactic(auto, unfolding(newick_reading::specs::inner::Moves::next_depth))]
pub fn next_depth(depth: usize, b: u8) -> usize
    requires { depth ≤ deepest }
    ensures { result ≡ next_depth depth b }
{
    match b {
        b'(' => depth + 1,
        b')' => depth.saturating_sub(1),
        _ => depth,
    }
}
