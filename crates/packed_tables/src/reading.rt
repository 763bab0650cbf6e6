// A cell and a row of a packed table, read where they stand.
ghost use Rattle.std.specs.Prelude.{◌≡◌, ℕ, ◌+◌, ◌<◌, ◌≤◌, List, length, get_or};
ghost use Rattle.base.specs.Lists.{filled};
ghost use Rattle.limits.specs.Limits.{most_leaves};
ghost use Rattle.packed_tables.specs.Packed.{cells_before, mirrored, packed_cells, Packed};

// How many cells above the diagonal stand before cell (i, j), i < j. For the crates above, too.
pub fn cells_before(n: usize, i: usize, j: usize) -> usize
    requires { (n ≤ most_leaves) × (i < j) × (j < n) }
    ensures { result ≡ cells_before n i j }
{
    i * n - i * (i + 1) / 2 + (j - i - 1)
}

// The bytes of a packed table of n leaves.
#[derive(Clone, Copy)]
pub(crate) struct Table<'a> {
    pub(crate) n: usize,
    pub(crate) bytes: &'a [u8],
    ghost packed: { Packed n bytes.now },
}

impl<'a> Table<'a> {
    // Cell (i, j) above the diagonal: two bytes, the low one first.
    fn cell_above(self, i: usize, j: usize) -> u32
        requires { (i < j) × (j < self.n) }
        ensures { let n = self.entry.n in
            result ≡ get_or (packed_cells n self.entry.bytes.now) (cells_before n i j) 0 }
    {
        u32::from(byte_numbers::pair_at(self.bytes, 2 * cells_before(self.n, i, j)))
    }

    // Cell (i, j) of the table: below the diagonal the mirror cell, on it 0.
    pub(crate) fn cell(self, i: usize, j: usize) -> u32
        requires { (i < self.n) × (j < self.n) }
        ensures { let n = self.entry.n in result ≡ mirrored n (packed_cells n self.entry.bytes.now) i j }
    {
        if i < j {
            return self.cell_above(i, j);
        }
        if j < i {
            return self.cell_above(j, i);
        }
        0
    }

    // The cells of row i below the diagonal, which are those of column i above it.
    fn write_below(self, i: usize, out: &mut [u32])
        requires { (i < self.n) × (self.n ≤ length out.old) }
        ensures { let n = self.entry.n in
            out.new ≡ filled i (mirrored n (packed_cells n self.entry.bytes.now) i) out.old }
    {
        for j in 0..i {
            out[j] = self.cell_above(j, i);
        }
    }

    // The cells of row i above the diagonal, after those up to it.
    fn write_above(self, i: usize, out: &mut [u32])
        requires { (i < self.n) × (self.n ≤ length out.old) }
        ensures { let n = self.entry.n in let cells = mirrored n (packed_cells n self.entry.bytes.now) i in
            (base : List ℕ) → n ≤ length base → out.old ≡ filled (i + 1) cells base → out.new ≡ filled n cells base }
    {
        for j in i + 1..self.n {
            out[j] = self.cell_above(i, j);
        }
    }

    // Row i of the table at the front of `out`.
    pub(crate) fn write_row(self, i: usize, out: &mut [u32])
        requires { (i < self.n) × (self.n ≤ length out.old) }
        ensures { let n = self.entry.n in
            out.new ≡ filled n (mirrored n (packed_cells n self.entry.bytes.now) i) out.old }
    {
        self.write_below(i, out);
        out[i] = 0;
        self.write_above(i, out);
    }
}
