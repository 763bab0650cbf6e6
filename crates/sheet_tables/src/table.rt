// The table of a sheet, written row by row from its packed cells.
ghost use Rattle.std.specs.Prelude.{◌≡◌, ◌*◌, ◌<◌, ◌≤◌, length};
ghost use Rattle.base.specs.Lists.{filled};
ghost use Rattle.packed_tables.specs.Packed.{packed_cells, Packed};
ghost use Rattle.sheet_tables.specs.inner.Rows.{table_rule, RowWritten};

// Row i of the table is written after the rows before it.
fn write_row(n: usize, packed: &[u8], i: usize, out: &mut [u32])
    requires { Packed n packed.now × (i < n) × (n * n ≤ length out.old) }
    ensures { RowWritten n (packed_cells n packed.now) i out.old out.new }
{
    let at = i * n;
    packed_tables::write_row(n, packed, i, &mut out[at..]);
}

// The table is written, row by row.
pub(crate) fn write_table(n: usize, packed: &[u8], out: &mut [u32])
    requires { Packed n packed.now × (n * n ≤ length out.old) }
    ensures { out.new
        ≡ filled (n * n) (table_rule n (packed_cells n packed.now)) out.old }
{
    for i in 0..n {
        write_row(n, packed, i, out);
    }
}
