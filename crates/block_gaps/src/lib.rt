// The sizes of the gaps between a new table and a tree's own, added up over the cells of two sets of leaves, each leaf
// having the class of its set. A row is gone through whole, so that there is no branch in it.
#![tactic(auto)]

ghost use Rattle.std.specs.Prelude.{◌≡◌, ◌≤◌, ◌<◌, eqb};
ghost use Rattle.base.specs.Numbers.{indicator};
ghost use Rattle.limits.specs.Limits.{most_leaves};
ghost use Rattle.grafted_cells.specs.inner.Moves.{block_gap};
ghost use Rattle.block_gaps.specs.inner.Blocks.{TablesFit, of_class, RowAdded, RowOfClass, most_gaps};

use limits::MOST_LEAVES;
use numbers::apart;

// A table of n leaves and a new one of n + 1, and the scale of the new one. It is passed by value: behind a reference
// the loops over a block take up to a tenth longer.
#[derive(Clone, Copy)]
pub struct Tables<'a> {
    pub n: usize,
    pub scale: u32,
    pub table: &'a [u32],
    pub new: &'a [u32],
    pub ghost fit: { TablesFit n scale table.now new.now },
}

// The gaps with the cells of the tree's own table as they are, and with each of them so many larger.
#[derive(Clone, Copy)]
pub struct Sums {
    pub as_is: u64,
    pub larger: u64,
}

// This gap where two numbers are equal, else 0.
fn where_equal(x: u32, y: u32, gap: u32) -> u32
    ensures { (result ≡ indicator (eqb x y) gap) × (result ≤ gap) }
{
    if x == y { gap } else { 0 }
}

// The gaps of row i in the columns of class y.
fn add_row(t: Tables, i: usize, y: u32, scale: u32, more: u32, classes: &[u32; MOST_LEAVES]) -> Sums
    requires { (i < t.n) × (scale ≡ t.scale) × (more ≤ most_leaves) }
    ensures { RowAdded t.entry.n i scale 0 classes.now t.entry.table.now t.entry.new.now y t.entry.n result.as_is
        × RowAdded t.entry.n i scale more classes.now t.entry.table.now t.entry.new.now y t.entry.n result.larger }
{
    let n = t.n;
    let old_row = i * n;
    let new_row = i * (n + 1);
    let mut as_is: u64 = 0;
    let mut larger: u64 = 0;
    for j in 0..n {
        let class = classes[j];
        let cell = t.new[new_row + j];
        let count = t.table[old_row + j];
        as_is += u64::from(where_equal(class, y, apart(cell, scale * count)));
        larger += u64::from(where_equal(class, y, apart(cell, scale * (count + more))));
    }
    Sums { as_is, larger }
}

// The same where row i is of class x, else nothing. With counts the scale is known to be 1 here, and the loop has no
// product to take.
fn add_row_of_class(
    t: Tables,
    i: usize,
    x: u32,
    y: u32,
    more: u32,
    classes: &[u32; MOST_LEAVES],
) -> Sums
    requires { (i < t.n) × (more ≤ most_leaves) }
    ensures { RowOfClass t.entry.n i t.entry.scale 0 classes.now t.entry.table.now t.entry.new.now x y result.as_is
        × RowOfClass t.entry.n i t.entry.scale more classes.now t.entry.table.now t.entry.new.now x y result.larger }
{
    if classes[i] != x {
        return Sums {
            as_is: 0,
            larger: 0,
        };
    }
    if t.scale == 1 {
        return add_row(t, i, y, 1, more, classes);
    }
    add_row(t, i, y, t.scale, more, classes)
}

// The gaps of the rows of class x in the columns of class y. For the crates above.
pub fn add_block(t: Tables, x: u32, y: u32, more: u32, classes: &[u32; MOST_LEAVES]) -> Sums
    requires { more ≤ most_leaves }
    ensures as_is { (result.as_is ≡ block_gap t.entry.n t.entry.scale 0 t.entry.table.now t.entry.new.now
        (of_class classes.now x) (of_class classes.now y)) × (result.as_is ≤ most_gaps) }
    ensures larger { (result.larger ≡ block_gap t.entry.n t.entry.scale more t.entry.table.now t.entry.new.now
        (of_class classes.now x) (of_class classes.now y)) × (result.larger ≤ most_gaps) }
{
    let mut as_is: u64 = 0;
    let mut larger: u64 = 0;
    for i in 0..t.n {
        let row = add_row_of_class(t, i, x, y, more, classes);
        as_is += row.as_is;
        larger += row.larger;
    }
    Sums { as_is, larger }
}
