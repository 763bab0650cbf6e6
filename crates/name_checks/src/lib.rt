// The names of a sheet: whether each is good and equals no earlier one (15 and 16).
#![tactic(auto)]

ghost use Rattle.std.specs.Prelude.{◌≡◌, ◌+◌, ◌≤◌, length};
ghost use Rattle.std.proofs.Math.Option.{none};
ghost use Rattle.base.specs.Lists.{all_in};
ghost use Rattle.limits.specs.Limits.{most_leaves};
ghost use Rattle.refusals.specs.Refusals.{outcome_of, answered, returned};
ghost use Rattle.sheet_rules.specs.Sheets.{name_at, next_name, name_byte, longest_sheet};
ghost use Rattle.sheet_rules.specs.Operations.{good_at, names_refusal};
ghost use Rattle.name_index.specs.inner.Hashes.{hash_if};
ghost use Rattle.name_index.specs.inner.Indexes.{first_names};

use name_index::{NameIndex, hash_byte};
use refusals::Refusal;

pub const LONGEST_NAME: usize = 40;

// A byte that a name may have: a letter, a digit, a full stop or a hyphen (ASCII).
pub fn is_name_byte(x: u8) -> bool
    ensures { result ≡ name_byte x }
{
    matches!(x, b'A'..=b'Z' | b'a'..=b'z' | b'0'..=b'9' | b'.' | b'-')
}

// The hash of bytes that a name may have, each of them.
fn bytes_hash(bytes: &[u8]) -> Option<u64>
    ensures { result ≡ hash_if (all_in name_byte bytes.now) bytes.now }
{
    let mut hash = 0;
    for b in bytes {
        if !is_name_byte(*b) {
            return None;
        }
        hash = hash_byte(hash, *b);
    }
    Some(hash)
}

// The hash of the name that starts at a place, where it is good: it begins before the offset and ends at or before it,
// and is a name.
fn name_hash(sheet: &[u8], offset: usize, at: usize) -> Option<u64>
    requires { offset ≤ length sheet.now }
    ensures { result ≡ hash_if (good_at sheet.now offset at) (name_at sheet.now at) }
{
    if offset <= at {
        return None;
    }
    let many = usize::from(sheet[at]);
    if many == 0 || LONGEST_NAME < many {
        return None;
    }
    let from = at + 1;
    if offset - from < many {
        return None;
    }
    let to = from + many;
    bytes_hash(&sheet[from..to])
}

// Where the name after this one starts.
fn next_name(sheet: &[u8], at: usize) -> usize
    requires { next_name sheet.now at ≤ length sheet.now }
    ensures { result ≡ next_name sheet.now at }
{
    at + 1 + usize::from(sheet[at])
}

// Takes the names of a sheet one by one into an index of none, each judged by 15 before 16; then 15 with n where they
// end before the offset. Where nothing is refused, the index has all of them. For the crates above.
pub fn take_names(
    sheet: &[u8],
    n: usize,
    offset: usize,
    names: &mut NameIndex<'_>,
) -> Result<(), Refusal>
    requires { (offset ≤ length sheet.now) × (n ≤ most_leaves) × (names.old ≡ first_names sheet.now 0) }
    ensures answer { result ≡ outcome_of (names_refusal sheet.now n offset) }
    ensures index { names_refusal sheet.now n offset ≡ none → names.new ≡ first_names sheet.now n }
{
    let mut at = 0;
    for i in 0..n {
        let hash = name_hash(sheet, offset, at).ok_or(Refusal::Name(i))?;
        if !names.add(at, hash) {
            return Err(Refusal::SameName(i));
        }
        at = next_name(sheet, at);
    }
    if at < offset {
        return Err(Refusal::Name(n));
    }
    Ok(())
}

// The same, and where nothing is refused, the index by value. Both figures stand by themselves: the struct that has
// them is the crate's above. For the crates above.
pub fn judge_names(sheet: &[u8], n: usize, offset: usize) -> Result<NameIndex<'_>, Refusal>
    requires { (offset ≤ length sheet.now) × (length sheet.now ≤ longest_sheet) × (n ≤ most_leaves) }
    ensures { result ≡ returned (answered (names_refusal sheet.now n offset) (first_names sheet.now n)) }
{
    let mut names = NameIndex::new(sheet);
    take_names(sheet, n, offset, &mut names)?;
    Ok(names)
}

// The same, with no index left. For the crates above.
pub fn check_names(sheet: &[u8], n: usize, offset: usize) -> Result<(), Refusal>
    requires { (offset ≤ length sheet.now) × (length sheet.now ≤ longest_sheet) × (n ≤ most_leaves) }
    ensures { result ≡ outcome_of (names_refusal sheet.now n offset) }
{
    take_names(sheet, n, offset, &mut NameIndex::new(sheet))
}
