// Writing a cell of a packed table: its two bytes, which are those of its mirror cell too.
#![tactic(auto)]

ghost use Rattle.std.specs.Prelude.{◌≢◌, ◌<◌};
ghost use Rattle.packed_tables.specs.Packed.{Packed};
ghost use Rattle.packed_writing.specs.inner.Writing.{CellPut};

use packed_tables::reading::cells_before;

// Cell (i, j) above the diagonal becomes v: two bytes, the low one first.
fn put_above(n: usize, packed: &mut [u8], i: usize, j: usize, v: u16)
    requires { Packed n packed.old × (i < j) × (j < n) }
    ensures { CellPut n packed.old packed.new i j v }
{
    let at = 2 * cells_before(n, i, j);
    let [low, high] = v.to_le_bytes();
    packed[at] = low;
    packed[at + 1] = high;
}

// Cell (i, j) of a packed table of n leaves, and its mirror cell, become v.
pub fn put_cell(n: usize, packed: &mut [u8], i: usize, j: usize, v: u32)
    requires { Packed n packed.old × (i < n) × (j < n) × (i ≢ j) × (v < 65536) }
    ensures { CellPut n packed.old packed.new i j v }
{
    if i < j {
        put_above(n, packed, i, j, v as u16);
    } else {
        put_above(n, packed, j, i, v as u16);
    }
}
