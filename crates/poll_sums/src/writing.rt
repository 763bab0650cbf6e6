// The sums of a poll, written as its table: a cell below the diagonal is its mirror cell's sum.
ghost use Rattle.std.specs.Prelude.{◌≡◌, ◌+◌, ◌*◌, ◌/◌, ◌%◌, ◌≤◌, ◌<◌, length};
ghost use Rattle.base.specs.Lists.{filled};
ghost use Rattle.limits.specs.declared.Kind.TheVariants.{Poll};
ghost use Rattle.limits.specs.Limits.{most_poll_cells, most_polled, IsCountOf};
ghost use Rattle.poll_sums.specs.inner.Sums.{mirrored_sum};

use limits::MOST_POLL_CELLS;

// The sum of a cell, or of its mirror cell where it stands below the diagonal.
fn sum_at(n: usize, row: usize, column: usize, sums: &[u32; MOST_POLL_CELLS]) -> u32
    requires { (row < n) × (column < n) × (n ≤ most_polled) × (length sums.now ≡ most_poll_cells) }
    ensures { result ≡ mirrored_sum n sums.now row column }
{
    sums[row.min(column) * n + row.max(column)]
}

// Writes the n * n cells of the table. For the crates above.
pub fn write_table(n: usize, sums: &[u32; MOST_POLL_CELLS], out: &mut [u32])
    requires { IsCountOf Poll n × (n * n ≤ length out.old) × (length sums.now ≡ most_poll_cells) }
    ensures { out.new
        ≡ filled (n * n) (λ k. mirrored_sum n sums.now (k / n) (k % n)) out.old }
{
    for row in 0..n {
        for column in 0..n {
            out[row * n + column] = sum_at(n, row, column, sums);
        }
    }
}
