// The guided rebuild: the proposals are followed one after the other, as far as each names an eligible pair.
#![tactic(auto)]

ghost use Rattle.std.specs.Prelude.{◌≡◌, ◌-◌, ◌*◌, ◌≤◌, length};
ghost use Rattle.limits.specs.Limits.{IsLeafCount, scale_of};
ghost use Rattle.refusals.specs.Refusals.{outcome, written};
ghost use Rattle.refusals.specs.Meanings.{Gives};
ghost use Rattle.trees.specs.Tables.{IsTable};
ghost use Rattle.merging.specs.Merging.{start};
ghost use Rattle.merging.specs.Rebuilds.{guided};
ghost use Rattle.rebuild_answers.specs.Operations.{proposals, guided_answer};
ghost use Rattle.rebuild_answers.specs.Meanings.{GuidedMeans};
ghost use Rattle.state_arrays.specs.inner.Fits.{counts_scale, Given};
ghost use Rattle.guided_rebuild.specs.inner.Proposals.{HoldsReached, HoldsSomeReached, Labels, Proposed};

use eligible_pairs::{Cells, pair_fits};
use limits::{Kind, LEAF_COUNTS};
use own_rebuild::rebuild_checked;
use refusals::Refusal;
use state_arrays::{Arrays, scaled_counts};

// The proposal to merge the subtrees labelled `a` and `b`: whether these are two, and eligible. If so, they are merged.
fn try_merge(
    n: usize,
    table: &[u32],
    arrays: &mut Arrays,
    p: &[u32; LEAF_COUNTS],
    a: usize,
    b: usize,
) -> bool
    requires { Labels n (counts_scale p.now) table.now arrays.old.label arrays.old.m arrays.old.sizes p.now a b }
    ensures { Proposed n (counts_scale p.now) table.now arrays.old.label arrays.old.m arrays.old.sizes
        arrays.new.label arrays.new.m arrays.new.sizes a b result }
{
    if a == b || !pair_fits(n, &Cells { cells: table }, arrays, p, a, b) {
        return false;
    }
    if a < b {
        arrays.merge(n, p, a, b);
    } else {
        arrays.merge(n, p, b, a);
    }
    true
}

// The proposal to merge the subtrees that hold the leaves `i` and `j`.
fn propose(
    n: usize,
    table: &[u32],
    arrays: &mut Arrays,
    p: &[u32; LEAF_COUNTS],
    i: usize,
    j: usize,
) -> bool
    requires { Given n (counts_scale p.now) table.now p.now
        × HoldsSomeReached n (counts_scale p.now) table.now arrays.old.label arrays.old.m arrays.old.sizes }
    ensures { Proposed n (counts_scale p.now) table.now arrays.old.label arrays.old.m arrays.old.sizes
        arrays.new.label arrays.new.m arrays.new.sizes i j result }
{
    if n <= i || n <= j {
        return false;
    }
    let a = arrays.label[i] as usize;
    let b = arrays.label[j] as usize;
    try_merge(n, table, arrays, p, a, b)
}

// The proposals are followed one after the other, from single leaves: 12 with the first that is not accepted.
fn follow(
    n: usize,
    table: &[u32],
    merges: &[u16],
    arrays: &mut Arrays,
    p: &[u32; LEAF_COUNTS],
) -> Result<(), Refusal>
    requires { Given n (counts_scale p.now) table.now p.now × (length merges.now ≡ 2 * (n - 1))
        × HoldsReached n (counts_scale p.now) table.now arrays.old.label arrays.old.m arrays.old.sizes start }
    ensures { result ≡ outcome (guided n (counts_scale p.now) table.now (proposals merges.now)) }
{
    for k in 0..n - 1 {
        let i = usize::from(merges[2 * k]);
        let j = usize::from(merges[2 * k + 1]);
        if !propose(n, table, arrays, p, i, j) {
            return Err(Refusal::Proposal(k));
        }
    }
    Ok(())
}

// The guided rebuild of a table of this kind that has passed the checks placed before 12. Step k proposes to merge the
// subtrees that hold the leaves at 2 k and 2 k + 1. Where all are accepted, our own rebuild writes the listing of the
// same tree; else 12 with the first that is not, and `out` as it was.
fn guided_checked(
    kind: Kind,
    n: usize,
    table: &[u32],
    merges: &[u16],
    out: &mut [u16],
) -> Result<(), Refusal>
    requires { IsLeafCount n × IsTable n table.now × (2 * (n - 2) ≤ length out.old)
        × (length merges.now ≡ 2 * (n - 1)) }
    ensures answer { result ≡ outcome (guided n (scale_of kind) table.now (proposals merges.now)) }
    ensures buffer { out.new ≡ written (guided n (scale_of kind) table.now (proposals merges.now)) out.old }
{
    let p = scaled_counts(kind, n);
    let mut arrays = Arrays::single(n);
    follow(n, table, merges, &mut arrays, &p)?;
    rebuild_checked(kind, n, &Cells { cells: table }, out)
}

// The guided rebuild of a table of this kind: writes the standard listing of the tree that has it at the front of
// `out`, where each of the proposed merges names a pair that is eligible at its turn.
pub fn rebuild_guided(
    kind: Kind,
    n: usize,
    table: &[u32],
    merges: &[u16],
    out: &mut [u16],
) -> Result<(), Refusal>
    ensures answer { result
        ≡ outcome (guided_answer kind n table.now merges.now (length out.old)) }
    ensures buffer { out.new
        ≡ written (guided_answer kind n table.now merges.now (length out.old))
        out.old }
    ensures meaning { Gives outcome
        (GuidedMeans kind n table.now merges.now (length out.old)) result
        out.old out.new }
{
    checks::judge_input(kind, n, checks::numbers_due(n, 2, 1), merges.len())?;
    table_checks::judge_for_rows(kind, n, table, out.len())?;
    guided_checked(kind, n, table, merges, out)
}
