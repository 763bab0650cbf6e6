// Leaf sets by value, sixteen bytes, one bit a leaf: joined, intersected and compared a word at a time.
#![tactic(auto)]

ghost use Rattle.std.specs.Prelude.{◌≡◌, ◌++◌, ◌+◌, ◌≤◌, length, take, drop};
ghost use Rattle.limits.specs.Limits.{set_bytes};
ghost use Rattle.trees.specs.Trees.{leaf, leaves};
ghost use Rattle.trees.specs.Splits.{bytes_of, set_of};
ghost use Rattle.sets.specs.Sets.{combined, same_set};

use limits::SET_BYTES;

pub mod words;

// What is made of two sets: joined they have the leaves of either, intersected those of both.
#[derive(Clone, Copy)]
pub enum Combination {
    Union,
    Intersection,
}

// The set of leaf k alone.
pub fn single(k: usize) -> [u8; SET_BYTES]
    ensures { result ≡ bytes_of (leaves (leaf k)) }
{
    words::to_bytes(words::single(k))
}

// What is made of two sets.
pub fn combine(what: Combination, a: [u8; SET_BYTES], b: [u8; SET_BYTES]) -> [u8; SET_BYTES]
    ensures { result ≡ bytes_of (combined what (set_of a) (set_of b)) }
{
    words::to_bytes(words::combine(what, words::of_bytes(a), words::of_bytes(b)))
}

// Whether two sets are the same.
pub fn equal(a: [u8; SET_BYTES], b: [u8; SET_BYTES]) -> bool
    ensures { result ≡ same_set (set_of a) (set_of b) }
{
    words::equal(words::of_bytes(a), words::of_bytes(b))
}

// Writes a set at a place of the output. For the crates above.
pub fn put_set(out: &mut [u8], at: usize, s: [u8; SET_BYTES])
    requires { at + set_bytes ≤ length out.old }
    ensures { out.new ≡ take at out.old ++ s ++ drop (at + set_bytes) out.old }
{
    out[at..at + SET_BYTES].copy_from_slice(&s);
}
