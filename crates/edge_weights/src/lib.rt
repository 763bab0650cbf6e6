// What moving leaf n down an edge adds to the total gap to a new table, and what it takes from it. Before a row of the
// standard listing is gone through as a merge, its two children are the sets of leaves with two labels. Where leaf n
// moves from the edge above the row's node to that above a child, two blocks of cells change, and its own row.
#![tactic(auto)]

ghost use Rattle.std.specs.Prelude.{◌≡◌, ◌+◌, ◌-◌, ◌≤◌, ◌<◌};
ghost use Rattle.limits.specs.Limits.{most_leaves};
ghost use Rattle.trees.specs.Tables.{IsTable};
ghost use Rattle.grafted_cells.specs.inner.Moves.{block_gap};
ghost use Rattle.block_gaps.specs.inner.Blocks.{of_class, most_gaps};
ghost use Rattle.edge_weights.specs.inner.Classes.{class_of, Classified};
ghost use Rattle.edge_weights.specs.inner.NewRows.{count_at, row_gap, RowGapFits};
ghost use Rattle.edge_weights.specs.inner.Rows.{Given, BeforeRow};
ghost use Rattle.edge_weights.specs.inner.Weights.{ChildWeighed, RowWeighed};

use block_gaps::{Sums, Tables, add_block};
use limits::{LEAF_COUNTS, MOST_LEAVES, MOST_NODES};
use listings::row_at;
use numbers::apart;

// What moving leaf n from the edge above a node to that above its child adds to the total gap, and what it takes from
// it, but for the gaps in the row of leaf n at the node's edge; and those gaps at the child's edge.
#[derive(Clone, Copy)]
pub struct Weight {
    pub gain: u64,
    pub loss: u64,
    pub row: u64,
}

// The weights of the two children of a row.
#[derive(Clone, Copy)]
pub struct Weights {
    pub first: Weight,
    pub second: Weight,
}

// The class of a leaf with this label: 1 where it is a, 2 where it is b, else 0.
// A number of 32 bits, as a cell is: the loops over a row compare it without a branch.
fn class_of(label: u32, a: u32, b: u32) -> u32
    ensures { result ≡ class_of label a b }
{
    if label == a {
        1
    } else if label == b {
        2
    } else {
        0
    }
}

// The classes of n leaves.
fn classify(n: usize, label: &[u32; MOST_LEAVES], a: u32, b: u32) -> [u32; MOST_LEAVES]
    requires { n ≤ most_leaves }
    ensures { Classified n label.now a b result }
{
    let mut classes = [0u32; MOST_LEAVES];
    for j in 0..n {
        classes[j] = class_of(label[j], a, b);
    }
    classes
}

// The gaps of a block, by the rows of the smaller set.
fn block(
    t: Tables,
    x: u32,
    rows: usize,
    y: u32,
    columns: usize,
    more: u32,
    classes: &[u32; MOST_LEAVES],
) -> Sums
    requires { (more ≤ most_leaves) × IsTable t.n t.table.now × IsTable (t.n + 1) t.new.now }
    ensures as_is { (result.as_is ≡ block_gap t.entry.n t.entry.scale 0 t.entry.table.now t.entry.new.now
        (of_class classes.now x) (of_class classes.now y)) × (result.as_is ≤ most_gaps) }
    ensures larger { (result.larger ≡ block_gap t.entry.n t.entry.scale more t.entry.table.now t.entry.new.now
        (of_class classes.now x) (of_class classes.now y)) × (result.larger ≤ most_gaps) }
{
    if columns < rows {
        return add_block(t, y, x, more, classes);
    }
    add_block(t, x, y, more, classes)
}

// The count of a cell in the row of leaf n: near it, or far from it.
fn near_or_far(label: u32, f: u32, near: u32, far: u32) -> u32
    ensures { result ≡ count_at label f near far }
{
    if label == f { near } else { far }
}

// The gaps in the row of leaf n, where it is on the edge above the subtree of `size` leaves that has the label f. For
// the crates above.
pub fn new_row_gap(
    t: Tables,
    f: usize,
    size: usize,
    label: &[u32; MOST_LEAVES],
    m: &[u32; MOST_LEAVES],
    p: &[u32; LEAF_COUNTS],
) -> u64
    requires { RowGapFits t.n f size m.now p.now }
    ensures { (result ≡ row_gap t.entry.n f size t.entry.scale label.now m.now p.now
        t.entry.table.now t.entry.new.now t.entry.n) × (result ≤ most_gaps) }
{
    let n = t.n;
    let own = f as u32;
    let inside = p[n - size];
    let outside = p[size] - m[f];
    let old_row = f * n;
    let new_row = n * (n + 1);
    let mut sum: u64 = 0;
    for i in 0..n {
        let count = near_or_far(
            label[i],
            own,
            m[i] + inside,
            t.scale * t.table[old_row + i] + outside,
        );
        sum += u64::from(apart(t.new[new_row + i], count));
    }
    sum
}

// The weight of a child of `own` leaves that has the label f, where its brother has `brother` leaves and the class y.
// Between the two are these gaps: as they are, and with the number of leaves beyond both added to each cell.
fn weigh_child(
    t: Tables,
    f: usize,
    own: usize,
    y: u32,
    brother: usize,
    between: Sums,
    classes: &[u32; MOST_LEAVES],
    label: &[u32; MOST_LEAVES],
    m: &[u32; MOST_LEAVES],
    p: &[u32; LEAF_COUNTS],
) -> Weight
    requires { IsTable t.n t.table.now × IsTable (t.n + 1) t.new.now
        × (own + brother ≤ t.n) × RowGapFits t.n f own m.now p.now × (between.as_is ≤ most_gaps)
        × (between.larger ≤ most_gaps) }
    ensures { ChildWeighed t.entry.n f own y between.as_is between.larger t.entry.scale classes.now
        label.now m.now p.now t.entry.table.now t.entry.new.now result.gain result.loss result.row }
{
    let others = t.n - (own + brother);
    let beyond = block(t, y, brother, 0, others, own as u32, classes);
    let row = new_row_gap(t, f, own, label, m, p);
    Weight {
        gain: between.as_is + beyond.larger + row,
        loss: between.larger + beyond.as_is,
        row,
    }
}

// The weights of the children of row k, before it is gone through. For the crates above.
pub fn weigh_row(
    t: Tables,
    k: usize,
    rows: &[u16],
    label: &[u32; MOST_LEAVES],
    m: &[u32; MOST_LEAVES],
    sizes: &[usize; MOST_LEAVES],
    firsts: &[u32; MOST_NODES],
    p: &[u32; LEAF_COUNTS],
) -> Weights
    requires { Given t.n t.scale rows.now t.table.now t.new.now p.now
        × BeforeRow t.n t.scale rows.now k label.now m.now sizes.now firsts.now × (k < t.n - 2) }
    ensures { RowWeighed t.entry.n t.entry.scale rows.now t.entry.table.now t.entry.new.now k
        result.first.gain result.first.loss result.first.row result.second.gain result.second.loss result.second.row }
{
    let n = t.n;
    let r = row_at(rows, k);
    let i = r.first;
    let j = r.second;
    let a = firsts[i] as usize;
    let b = firsts[j] as usize;
    let own = sizes[a];
    let other = sizes[b];
    let classes = classify(n, label, a as u32, b as u32);
    let beyond = (n - (own + other)) as u32;
    let between = block(t, 1, own, 2, other, beyond, &classes);
    let first = weigh_child(t, a, own, 2, other, between, &classes, label, m, p);
    let second = weigh_child(t, b, other, 1, own, between, &classes, label, m, p);
    Weights { first, second }
}
