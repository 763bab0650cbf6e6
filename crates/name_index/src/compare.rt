// Two texts compared: eight bytes at a time, and the rest byte by byte.
ghost use Rattle.std.specs.Prelude.{◌≡◌, ◌+◌, ◌<◌, ◌≤◌, length, take, drop};
ghost use Rattle.byte_numbers.specs.Bytes.{number};
ghost use Rattle.sheet_rules.specs.Sheets.{same};

use byte_numbers::pair_at;

// The number in the four bytes at a place, and in the eight.
fn four_at(bytes: &[u8], at: usize) -> u64
    requires { at + 4 ≤ length bytes.now }
    ensures { (result ≡ number (take 4 (drop at bytes.now))) × (result < 4294967296) }
{
    u64::from(pair_at(bytes, at)) + 65536 * u64::from(pair_at(bytes, at + 2))
}

fn eight_at(bytes: &[u8], at: usize) -> u64
    requires { at + 8 ≤ length bytes.now }
    ensures { result ≡ number (take 8 (drop at bytes.now)) }
{
    four_at(bytes, at) + 4294967296 * four_at(bytes, at + 4)
}

// The eight bytes at a place of two texts are the same.
fn same_eight(s: &[u8], t: &[u8], at: usize) -> bool
    requires { (at + 8 ≤ length s.now) × (at + 8 ≤ length t.now) }
    ensures { result ≡ same (take 8 (drop at s.now)) (take 8 (drop at t.now)) }
{
    eight_at(s, at) == eight_at(t, at)
}

// Two texts are the same. For the crate's other modules.
pub(crate) fn same(s: &[u8], t: &[u8]) -> bool
    ensures { result ≡ same s.now t.now }
{
    let many = s.len();
    if many != t.len() {
        return false;
    }
    let eights = many / 8;
    for e in 0..eights {
        if !same_eight(s, t, 8 * e) {
            return false;
        }
    }
    for k in 8 * eights..many {
        if s[k] != t[k] {
            return false;
        }
    }
    true
}
