// The records of a poll, judged: its sizes, and a record against the quartet due; and the quartets in their order.
#![tactic(auto)]

ghost use Rattle.std.specs.Prelude.{◌≡◌, ◌≤◌, ◌<◌};
ghost use Rattle.limits.specs.declared.Kind.TheVariants.{Poll};
ghost use Rattle.limits.specs.Limits.{most_polled, IsCountOf};
ghost use Rattle.refusals.specs.Refusals.{outcome_of};
ghost use Rattle.poll_rules.specs.Records.{records_due, record_refusal};
ghost use Rattle.poll_rules.specs.Operations.{poll_sizes_refusal};
ghost use Rattle.poll_rules.specs.inner.Quartets.{Leaves, next_of};
ghost use Rattle.poll_records.specs.inner.Due.{packed, Polled, fresh};

use limits::Kind;
use poll_rules::{Quartet, Record};
use refusals::Refusal;

// The highest pairing code.
const LAST_CODE: u8 = 6;

// The quartet due, and what is ready for its record: its leaves in one number, where the rows of its first three leaves
// begin among the sums, and what is kept back for the cells of these three, three numbers in one. The rows go from
// record to record: with a product for each cell a poll takes 1.2 times as long.
#[derive(Clone, Copy)]
pub struct Due {
    pub quartet: Quartet,
    pub leaves: usize,
    pub first: usize,
    pub second: usize,
    pub third: usize,
    pub kept: u32,
}

// The four leaves in one number, a byte each.
#[tactic(auto, unfolding(crate::specs::inner::Due::packed))]
fn packed(q: Quartet) -> usize
    requires { (q.a < 256) × (q.b < 256) × (q.c < 256) × (q.d < 256) }
    ensures { result ≡ packed q }
{
    q.a + 256 * q.b + 65536 * q.c + 16777216 * q.d
}

// A quartet with new first leaves is due, and nothing is kept back. For the crates above.
pub fn begin(n: usize, q: Quartet) -> Due
    requires { (n ≤ most_polled) × Polled q }
    ensures { result ≡ fresh n q }
{
    Due {
        quartet: q,
        leaves: packed(q),
        first: q.a * n,
        second: q.b * n,
        third: q.c * n,
        kept: 0,
    }
}

// The quartet after q in lexicographic order. For the crates above.
pub fn next(n: usize, q: Quartet) -> Quartet
    requires { (n ≤ most_polled) × Leaves n q.a q.b q.c q.d }
    ensures { result ≡ next_of n q }
{
    let Quartet { a, b, c, d } = q;
    if d + 1 < n {
        return Quartet { a, b, c, d: d + 1 };
    }
    if c + 2 < n {
        return Quartet {
            a,
            b,
            c: c + 1,
            d: c + 2,
        };
    }
    if b + 3 < n {
        return Quartet {
            a,
            b: b + 1,
            c: b + 2,
            d: b + 3,
        };
    }
    Quartet {
        a: a + 1,
        b: a + 2,
        c: a + 3,
        d: a + 4,
    }
}

// Record k: 10 before 11. For the crates above.
pub fn judge_record(k: usize, due: Due, r: Record) -> Result<(), Refusal>
    requires { (due.leaves ≡ packed due.quartet) × Polled due.quartet }
    ensures { result ≡ outcome_of (record_refusal k due.quartet r) }
{
    // Packed: the leaves compared one by one, as two quartets, a poll takes 1.3 times as long.
    if packed(Quartet::from(r)) != due.leaves {
        return Err(Refusal::Record(k));
    }
    if LAST_CODE < r.code {
        return Err(Refusal::PairingCode(k));
    }
    Ok(())
}

// How many records a poll of n leaves has; 0 where no poll has n leaves.
fn records_due(n: usize) -> usize
    ensures { IsCountOf Poll n → result ≡ records_due n }
{
    if !checks::leaf_count_of(Kind::Poll, n) {
        return 0;
    }
    n * (n - 1) * (n - 2) * (n - 3) / 24
}

// The sizes: 1, 2, 3.
pub fn judge_sizes(n: usize, lent: usize, room: usize) -> Result<(), Refusal>
    ensures { result ≡ outcome_of (poll_sizes_refusal n lent room) }
{
    checks::judge_sizes(
        Kind::Poll,
        n,
        records_due(n),
        lent,
        checks::table_cells(n),
        room,
    )
}
