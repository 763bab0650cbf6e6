// The splits of a tree, written as leaf sets.
#![tactic(auto)]

ghost use Rattle.std.specs.Prelude.{◌≡◌, length};
ghost use Rattle.refusals.specs.Refusals.{outcome, written};
ghost use Rattle.splits.specs.Operations.{splits_answer};

use refusals::Refusal;

mod writing;

// Writes the splits of the tree that a listing stands for at the front of `out`, as leaf sets.
pub fn splits(n: usize, listing: &[u16], out: &mut [u8]) -> Result<(), Refusal>
    ensures answer { result ≡ outcome (splits_answer n listing.now (length out.old)) }
    ensures buffer { out.new
        ≡ written (splits_answer n listing.now (length out.old)) out.old }
{
    listings::judge_for_splits(n, listing, out.len())?;
    let mut rows = [0u16; limits::MOST_NUMBERS];
    standard_listings::standard_rows(n, listing, &mut rows);
    writing::write_splits(n, &rows[..2 * (n - 2)], out);
    Ok(())
}
