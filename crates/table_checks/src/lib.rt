// What is judged of a lent table.
#![tactic(auto)]

ghost use Rattle.std.specs.Prelude.{◌≡◌, ◌-◌, ◌*◌};
ghost use Rattle.refusals.specs.Refusals.{outcome_of};
ghost use Rattle.table_checks.specs.Operations.{table_refusal};

use crate::cells::Table;
use limits::Kind;
use refusals::Refusal;

mod cells;

// All that is judged of a table of this kind of n leaves, with room for a result of `due` numbers: 1, 2, 3, 4, 5.
pub fn judge(kind: Kind, n: usize, cells: &[u32], due: usize, room: usize) -> Result<(), Refusal>
    ensures { result ≡ outcome_of (table_refusal kind n cells.now due room) }
{
    checks::judge_table_sizes(kind, n, cells.len(), due, room)?;
    Table { n, cells }.wrong()
}

// The same with room for a listing, which three operations write.
pub fn judge_for_rows(kind: Kind, n: usize, cells: &[u32], room: usize) -> Result<(), Refusal>
    ensures { result ≡ outcome_of (table_refusal kind n cells.now (2 * (n - 2)) room) }
{
    judge(kind, n, cells, checks::listing_numbers(n), room)
}
