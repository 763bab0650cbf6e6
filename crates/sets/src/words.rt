// Leaf sets as words of 64 bits: leaf k is bit k mod 64 of word k div 64. They are made from bytes, and turned back.
ghost use Rattle.std.specs.Prelude.{◌≡◌, ℕ, ◌+◌, ◌*◌, ◌<◌, length, get_or};
ghost use Rattle.base.specs.Bits.{from_bits};
ghost use Rattle.limits.specs.Limits.{set_words};
ghost use Rattle.trees.specs.Trees.{leaf, leaves};
ghost use Rattle.trees.specs.Splits.{bytes_of, set_of};
ghost use Rattle.sets.specs.Words.{set_of_words, words_of};
ghost use Rattle.sets.specs.Sets.{combined, same_set};
ghost use Rattle.sets.specs.inner.Numbers.{of_numbers};

use crate::Combination;
use limits::{SET_BYTES, SET_WORDS};

// The words of a set, each made from its place: one by one, since a processor waits where one word of an array is
// stored and then the whole of it is read.
fn each_word<F: Fn(usize) -> u64>(word: F) -> [u64; SET_WORDS]
    requires { (i : ℕ) → i < set_words → F.pre word i }
    ensures { (length result ≡ set_words) × ((i : ℕ) → i < set_words → F.post word i (get_or result i 0)) }
{
    let mut words = [0u64; SET_WORDS];
    for i in 0..SET_WORDS {
        words[i] = word(i);
    }
    words
}

// The word of the eight bytes from byte 8i on, the lowest first.
fn word_at(s: [u8; SET_BYTES], i: usize) -> u64
    requires { i < set_words }
    ensures { result ≡ from_bits 64 (λ t. set_of s (64 * i + t)) }
{
    let mut bytes = [0u8; 8];
    bytes.copy_from_slice(&s[8 * i..8 * i + 8]);
    u64::from_le_bytes(bytes)
}

// The words of the set that bytes stand for.
pub fn of_bytes(s: [u8; SET_BYTES]) -> [u64; SET_WORDS]
    ensures { result ≡ words_of (set_of s) }
{
    each_word(|i| word_at(s, i))
}

// The bytes of the set that words stand for.
pub fn to_bytes(w: [u64; SET_WORDS]) -> [u8; SET_BYTES]
    ensures { result ≡ bytes_of (set_of_words w) }
{
    // A byte at a time: to_le_bytes would need a range of the output for each word.
    let mut r = [0u8; SET_BYTES];
    for i in 0..SET_BYTES {
        r[i] = ((w[i / 8] >> (8 * (i % 8))) % 256) as u8;
    }
    r
}

// Word i of the set of leaf k alone.
fn single_word(k: usize, i: usize) -> u64
    ensures { result ≡ from_bits 64 (λ t. leaves (leaf k) (64 * i + t)) }
{
    if k / 64 == i { 1 << (k % 64) } else { 0 }
}

// The set of leaf k alone.
pub fn single(k: usize) -> [u64; SET_WORDS]
    ensures { result ≡ words_of (leaves (leaf k)) }
{
    each_word(|i| single_word(k, i))
}

// A word of what is made of two sets.
fn combine_word(what: Combination, x: u64, y: u64) -> u64
    ensures { result ≡ of_numbers what x y }
{
    match what {
        Combination::Union => x | y,
        Combination::Intersection => x & y,
    }
}

// What is made of two sets.
pub fn combine(what: Combination, a: [u64; SET_WORDS], b: [u64; SET_WORDS]) -> [u64; SET_WORDS]
    ensures { result ≡ words_of (combined what (set_of_words a) (set_of_words b)) }
{
    each_word(|i| combine_word(what, a[i], b[i]))
}

// Whether two sets have the same leaves.
pub fn equal(a: [u64; SET_WORDS], b: [u64; SET_WORDS]) -> bool
    ensures { result ≡ same_set (set_of_words a) (set_of_words b) }
{
    a == b
}
