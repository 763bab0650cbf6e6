// Leaf sets that are lent: judged, and then joined, intersected or compared.
#![tactic(auto)]

ghost use Rattle.std.specs.Prelude.{◌≡◌, length, MatchResult};
ghost use Rattle.std.proofs.Math.Option.{none, some};
ghost use Rattle.refusals.specs.Refusals.{outcome, returned, written};
ghost use Rattle.lent_sets.specs.Operations.{pair_refusal, combine_answer, equal_answer};

use limits::SET_BYTES;
use refusals::Refusal;
use sets::Combination;

// Two lent sets where they lie: 2 where one of them has another length.
#[tactic(auto, using(crate::proofs::Pairs::pair_told))]
fn pair<'a>(a: &'a [u8], b: &'a [u8]) -> Result<(&'a [u8; SET_BYTES], &'a [u8; SET_BYTES]), Refusal>
    ensures { MatchResult result
        (λ x. (pair_refusal (length a.now) (length b.now) ≡ none) × (x.0.now ≡ a.now) × (x.1.now ≡ b.now))
        (λ r. pair_refusal (length a.now) (length b.now) ≡ some r) }
{
    let first = checks::of_length(a)?;
    let second = checks::of_length(b)?;
    Ok((first, second))
}

// Writes what is made of two sets at the front of `out`.
#[tactic(auto, using(crate::proofs::LentSets::combine_told))]
pub fn combine(what: Combination, a: &[u8], b: &[u8], out: &mut [u8]) -> Result<(), Refusal>
    ensures answer { result
        ≡ outcome (combine_answer what a.now b.now (length out.old)) }
    ensures buffer { out.new
        ≡ written (combine_answer what a.now b.now (length out.old))
        out.old }
{
    let (first, second) = pair(a, b)?;
    if out.len() < SET_BYTES {
        return Err(Refusal::OutputRoom);
    }
    sets::put_set(out, 0, sets::combine(what, *first, *second));
    Ok(())
}

// Whether two sets have the same leaves.
#[tactic(auto, using(crate::proofs::LentSets::equal_told))]
pub fn equal(a: &[u8], b: &[u8]) -> Result<bool, Refusal>
    ensures { result ≡ returned (equal_answer a.now b.now) }
{
    let (one, other) = pair(a, b)?;
    Ok(sets::equal(*one, *other))
}
