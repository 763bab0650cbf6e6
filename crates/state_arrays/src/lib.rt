// The arrays of a rebuild: each leaf has a label, the least leaf of its subtree, and its number m; a label has the
// number of leaves of its subtree. How they start, and what a merge makes of them. For the crates of the rebuilds.
#![tactic(auto)]

ghost use Rattle.std.specs.Prelude.{◌≡◌, ◌≤◌, length, replicate};
ghost use Rattle.base.specs.Lists.{filled};
ghost use Rattle.limits.specs.Limits.{most_leaves, scale_of};
ghost use Rattle.state_arrays.specs.inner.Fits.{ScaledCounts, largest_sum, SmallSums};
ghost use Rattle.state_arrays.specs.inner.Merged.{relabelled, growth, Gathered, MergeReady, Merged};

use limits::{Kind, LEAF_COUNTS, MOST_LEAVES};

// The pair counts of up to n leaves at the scale of this kind of table: entry k is the scale times P(k). For the crates
// above.
pub fn scaled_counts(kind: Kind, n: usize) -> [u32; LEAF_COUNTS]
    requires { n ≤ most_leaves }
    ensures { ScaledCounts n (scale_of kind) result }
{
    let scale = kind.scale();
    let mut p = pair_counts::pair_counts();
    for count in &mut p {
        *count *= scale;
    }
    p
}

// What m of a leaf with this label grows by, where the subtrees `a` and `b` merge; they have `pa` and `pb` pairs.
fn grow(label: u32, a: u32, b: u32, pa: u32, pb: u32) -> u32
    ensures { result ≡ growth label a b pa pb }
{
    if label == a {
        pb
    } else if label == b {
        pa
    } else {
        0
    }
}

// The label of a leaf, once the subtree `b` has become a part of `a`.
fn relabel(label: u32, a: u32, b: u32) -> u32
    ensures { result ≡ relabelled label a b }
{
    if label == b { a } else { label }
}

// The arrays of a rebuild, of the leaves and of the labels. The number of leaves and the pair counts are lent beside
// them, since they stay as they are. That m is small is no ghost field: a merge keeps it in a state that merging
// reaches, and not in any.
#[derive(Clone, Copy)]
pub struct Arrays {
    pub label: [u32; MOST_LEAVES],
    pub m: [u32; MOST_LEAVES],
    pub sizes: [usize; MOST_LEAVES],
}

impl Arrays {
    // Single leaves: each of n has its own label. For the crates above.
    pub fn single(n: usize) -> Self
        requires { n ≤ most_leaves }
        ensures label { result.label ≡ filled n (λ k. k) (replicate most_leaves 0) }
        ensures m { result.m ≡ replicate most_leaves 0 }
        ensures sizes { result.sizes ≡ replicate most_leaves 1 }
    {
        let mut label = [0; MOST_LEAVES];
        numbers::own_numbers(n, &mut label);
        Arrays {
            label,
            m: [0; MOST_LEAVES],
            sizes: [1; MOST_LEAVES],
        }
    }

    // The leaves of the subtrees `a` and `b` get the label `a`, and their m grow.
    fn gather(&mut self, n: usize, a: u32, b: u32, pa: u32, pb: u32)
        requires { (n ≤ most_leaves) × (length self.old.label ≡ most_leaves) × (length self.old.m ≡ most_leaves)
            × SmallSums n self.old.m × (pa ≤ largest_sum) × (pb ≤ largest_sum) }
        ensures gathered { Gathered n self.old.label self.old.m self.new.label self.new.m a b pa pb }
        ensures sizes { self.new.sizes ≡ self.old.sizes }
    {
        for x in 0..n {
            let l = self.label[x];
            self.m[x] += grow(l, a, b, pa, pb);
            self.label[x] = relabel(l, a, b);
        }
    }

    // The subtree `b` becomes a part of the subtree `a`; p has the pair counts. For the crates above.
    pub fn merge(&mut self, n: usize, p: &[u32; LEAF_COUNTS], a: usize, b: usize)
        requires { MergeReady n self.old.label self.old.m self.old.sizes p.now a b }
        ensures { Merged n self.old.label self.old.m self.old.sizes p.now self.new.label self.new.m self.new.sizes a b }
    {
        let first = self.sizes[a];
        let second = self.sizes[b];
        self.gather(n, a as u32, b as u32, p[first], p[second]);
        self.sizes[a] = first + second;
    }
}
