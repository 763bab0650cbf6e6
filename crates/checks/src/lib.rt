// What is judged of sizes and questions: 1, 2, 3 and 9; and how long a listing, a table and splits are due to be.
#![tactic(auto)]

ghost use Rattle.std.specs.Prelude.{◌≡◌, ◌-◌, ◌*◌, Ok, Err, MatchResult};
ghost use Rattle.limits.specs.declared.Kind.TheVariants.{Counts};
ghost use Rattle.limits.specs.Limits.{IsLeafCount, set_bytes};
ghost use Rattle.refusals.specs.Refusals.{outcome_of};
ghost use Rattle.checks.specs.Sizes.{right_count, by_value, input_refusal, sizes_refusal};

use limits::{FEWEST_POLLED, Kind, MOST_LEAVES, MOST_POLLED, SET_BYTES};
use refusals::Refusal;

pub mod questions;

// Whether a table of this kind may have n leaves.
pub fn leaf_count_of(kind: Kind, n: usize) -> bool
    ensures { result ≡ right_count kind n }
{
    match kind {
        Kind::Counts => (3..=MOST_LEAVES).contains(&n),
        Kind::Poll => (FEWEST_POLLED..=MOST_POLLED).contains(&n),
    }
}

// Whether a tree may have n leaves.
pub fn leaf_count(n: usize) -> bool
    ensures { result ≡ right_count Counts n }
{
    leaf_count_of(Kind::Counts, n)
}

// The leaf count, and the length of a lent input against the length that is due: 1, 2.
pub fn judge_input(kind: Kind, n: usize, due: usize, lent: usize) -> Result<(), Refusal>
    ensures { result ≡ outcome_of (input_refusal kind n due lent) }
{
    if !leaf_count_of(kind, n) {
        return Err(Refusal::LeafCount);
    }
    if lent != due {
        return Err(Refusal::InputLength);
    }
    Ok(())
}

// The same, and the room for a result: 1, 2, 3.
// Six numbers and no struct: at each call they come from six places.
pub fn judge_sizes(
    kind: Kind,
    n: usize,
    due: usize,
    lent: usize,
    res: usize,
    room: usize,
) -> Result<(), Refusal>
    ensures { result ≡ outcome_of (sizes_refusal kind n due lent res room) }
{
    judge_input(kind, n, due, lent)?;
    if room < res {
        return Err(Refusal::OutputRoom);
    }
    Ok(())
}

// A lent input of a fixed length: 2 where it has another. It is not copied, so that the caller loads it in one go.
#[tactic(auto, using(crate::proofs::Sizes::value_fits, crate::proofs::Sizes::value_off))]
pub fn of_length<T, const N: usize>(lent: &[T]) -> Result<&[T; N], Refusal>
    ensures { MatchResult result (λ x. Ok x.now ≡ by_value N lent.now) (λ r. Err r ≡ by_value N lent.now) }
{
    <&[T; N]>::try_from(lent).map_err(|_| Refusal::InputLength)
}

// The same by value.
pub fn by_value<T: Copy, const N: usize>(lent: &[T]) -> Result<[T; N], Refusal>
    ensures { result ≡ by_value N lent.now }
{
    Ok(*of_length(lent)?)
}

// So many numbers for each leaf but some. They are bytes, so that the product fits at every leaf count.
pub fn numbers_due(n: usize, each: u8, but: u8) -> usize
    ensures { IsLeafCount n → result ≡ each * (n - but) }
{
    n.saturating_sub(usize::from(but))
        .saturating_mul(usize::from(each))
}

// How many numbers a listing of n leaves has.
pub fn listing_numbers(n: usize) -> usize
    ensures { IsLeafCount n → result ≡ 2 * (n - 2) }
{
    numbers_due(n, 2, 2)
}

// How many rows a listing of n leaves has; 0 where there are not two leaves.
pub fn rows_of(n: usize) -> usize
    ensures { result ≡ n - 2 }
{
    n.saturating_sub(2)
}

// How many bytes the splits of a tree of n leaves take, a leaf set each.
pub fn split_bytes(n: usize) -> usize
    ensures { IsLeafCount n → result ≡ set_bytes * (n - 3) }
{
    numbers_due(n, SET_BYTES as u8, 3)
}

// How many cells a table of n leaves has.
pub fn table_cells(n: usize) -> usize
    ensures { IsLeafCount n → result ≡ n * n }
{
    n.saturating_mul(n)
}

// The sizes of a call that is lent a listing: 1, 2, 3.
pub fn judge_listing_sizes(n: usize, lent: usize, res: usize, room: usize) -> Result<(), Refusal>
    ensures { result ≡ outcome_of (sizes_refusal Counts n (2 * (n - 2)) lent res room) }
{
    judge_sizes(Kind::Counts, n, listing_numbers(n), lent, res, room)
}

// The sizes of a call that is lent a table of this kind: 1, 2, 3.
pub fn judge_table_sizes(
    kind: Kind,
    n: usize,
    lent: usize,
    res: usize,
    room: usize,
) -> Result<(), Refusal>
    ensures { result ≡ outcome_of (sizes_refusal kind n (n * n) lent res room) }
{
    judge_sizes(kind, n, table_cells(n), lent, res, room)
}
