// Packed tables: whether bytes are one, and a cell and a row of one.
#![tactic(auto)]

ghost use Rattle.std.specs.Prelude.{◌≡◌};
ghost use Rattle.packed_tables.specs.Operations.{is_packed, packed_cell, with_packed_row};

use crate::reading::Table;

pub mod reading;

// Whether bytes are a packed table of n leaves.
pub fn is_packed(n: usize, packed: &[u8]) -> bool
    ensures { result ≡ is_packed n packed.now }
{
    checks::leaf_count(n) && packed.len() == n * (n - 1)
}

// Cell (i, j) of a packed table of n leaves; 0 where the bytes are none, or i or j is no leaf.
// No Option: docs/TRACE.md names this function and `packed_cell`, whose equation has the 0.
pub fn cell(n: usize, packed: &[u8], i: usize, j: usize) -> u32
    ensures { result ≡ packed_cell n packed.now i j }
{
    if is_packed(n, packed) && i < n && j < n {
        return Table { n, bytes: packed }.cell(i, j);
    }
    0
}

// Writes row i of a packed table of n leaves at the front of `out`; nothing where the bytes are none, i is no leaf or
// there is no room.
pub fn write_row(n: usize, packed: &[u8], i: usize, out: &mut [u32])
    ensures { out.new ≡ with_packed_row n packed.now i out.old }
{
    if is_packed(n, packed) && i < n && n <= out.len() {
        Table { n, bytes: packed }.write_row(i, out);
    }
}
