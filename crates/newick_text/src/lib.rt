// A Newick text as import reads it: one pass, in which each name is looked up where it ends and rows are written as
// brackets close. What is kept does not grow with the text. For the crate of import.
#![tactic(auto)]

ghost use Rattle.std.specs.Prelude.{◌≡◌, ◌<◌};
ghost use Rattle.refusals.specs.Refusals.{outcome_of};
ghost use Rattle.name_index.specs.inner.Hashes.{hashes};
ghost use Rattle.newick_states.specs.inner.States.{number_of};
ghost use Rattle.newick_text.specs.inner.Texts.{next_from, next_hash, kept_refusal, Ready, ReadSays};

use limits::MOST_LEAVES;
use name_index::{NameIndex, hash_byte};
use newick_parts::Kept;
use newick_runs::run_on;
use newick_states::{State, next_depth, next_state};
use refusals::Refusal;
use rerooted_rows::Rerooting;

mod names;

// Where the name begins that the next byte may be in.
#[tactic(auto, unfolding(crate::specs::inner::Texts::next_from))]
fn name_from(state: State, from: usize, k: usize) -> usize
    ensures { result ≡ next_from (number_of state) from k }
{
    match state {
        State::InName => from,
        _ => k,
    }
}

// Its hash behind byte b.
#[tactic(auto, unfolding(crate::specs::inner::Texts::next_hash))]
fn name_hash(state: State, after: State, hash: u64, b: u8) -> u64
    requires { hash < hashes }
    ensures { (result ≡ next_hash (number_of state) (number_of after) hash b) × (result < hashes) }
{
    match (state, after) {
        (State::InName, State::InName) => hash_byte(hash, b),
        (_, State::InName) => hash_byte(0, b),
        _ => 0,
    }
}

// What is judged of a text that keeps the grammar, by what is kept of it: 18, 19.
#[tactic(auto, using(crate::proofs::Texts::not_named, crate::proofs::Texts::not_all, crate::proofs::Texts::all_right))]
fn judge_kept(n: usize, kept: &Kept) -> Result<(), Refusal>
    ensures { result ≡ outcome_of (kept_refusal n kept.now) }
{
    if !kept.binary {
        return Err(Refusal::NotBinary);
    }
    if !kept.named || kept.many != n {
        return Err(Refusal::Unmatched);
    }
    Ok(())
}

// Reads a text: 17, 18, 19, each over the whole text; or the rows of the tree that it draws. For the crates above.
pub fn read_text(names: &NameIndex, text: &[u8]) -> Result<Rerooting, Refusal>
    requires { Ready names.now }
    ensures { ReadSays names.now.sheet text.now names.now.many result }
{
    let n = names.len();
    let mut kept = Kept::new();
    let mut seen = [false; MOST_LEAVES];
    let mut state = State::Due;
    let mut depth = 0;
    let mut from = 0;
    let mut hash = 0;
    let mut k = 0;
    // A while: each step goes to behind a run of bytes.
    while k < text.len() {
        let b = text[k];
        let Some(after) = next_state(state, depth, b) else {
            return Err(Refusal::Grammar(k));
        };
        names::end_name(
            names, text, from, k, hash, state, after, &mut kept, &mut seen,
        );
        kept.bracket(b, n, depth);
        from = name_from(state, from, k);
        depth = next_depth(depth, b);
        let run = run_on(text, after, k + 1, name_hash(state, after, hash, b));
        hash = run.hash;
        k = run.to;
        state = after;
    }
    match state {
        State::Ended => judge_kept(n, &kept)?,
        _ => return Err(Refusal::Grammar(k)),
    }
    Ok(kept.joined)
}
