// The names of a text: each is looked up where it ends (19).
ghost use Rattle.std.specs.Prelude.{◌≡◌};
ghost use Rattle.sheet_rules.specs.Sheets.{names_of};
ghost use Rattle.newick_states.specs.inner.States.{number_of};
ghost use Rattle.newick_text.specs.inner.Names.{word_at, NameFits, NameTaken, NameMayEnd};
ghost use Rattle.newick_text.specs.inner.Names.{NameEnded};

use limits::MOST_LEAVES;
use name_index::NameIndex;
use newick_parts::Kept;
use newick_states::State;

// A name, which has this hash.
fn take_name(
    names: &NameIndex,
    word: &[u8],
    hash: u64,
    kept: &mut Kept,
    seen: &mut [bool; MOST_LEAVES],
)
    requires { NameFits names.now word.now hash kept.old seen.old }
    ensures { NameTaken (names_of names.now.sheet) names.now.many word.now kept.old seen.old
        kept.new seen.new }
{
    if !kept.named {
        return;
    }
    match names.find(word, hash) {
        Some(i) if !seen[i] => {
            seen[i] = true;
            kept.last = i as u16;
            kept.many += 1;
        }
        _ => kept.named = false,
    }
}

// The name that begins at a place of the text, where it ends before byte k: the state is in one, and the next is not.
pub(crate) fn end_name(
    names: &NameIndex,
    text: &[u8],
    from: usize,
    k: usize,
    hash: u64,
    state: State,
    after: State,
    kept: &mut Kept,
    seen: &mut [bool; MOST_LEAVES],
)
    requires { NameMayEnd names.now text.now (number_of state) from k hash kept.old seen.old }
    ensures { NameEnded (names_of names.now.sheet) names.now.many (word_at text.now from k) (number_of state)
        (number_of after) kept.old seen.old kept.new seen.new }
{
    match (state, after) {
        (State::InName, State::InName) => {}
        (State::InName, _) => take_name(names, &text[from..k], hash, kept, seen),
        _ => {}
    }
}
