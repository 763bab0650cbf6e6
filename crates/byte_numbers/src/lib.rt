// Numbers in bytes, low byte first.
#![tactic(auto)]

ghost use Rattle.std.specs.Prelude.{◌≡◌, ◌+◌, ◌/◌, ◌%◌, ◌<◌, ◌≤◌, length, take, drop};
ghost use Rattle.byte_numbers.specs.Bytes.{number};

// The number in the two bytes at a place. For the crates above.
pub fn pair_at(bytes: &[u8], at: usize) -> u16
    requires { at + 2 ≤ length bytes.now }
    ensures { (result ≡ number (take 2 (drop at bytes.now))) × (result < 65536) }
{
    u16::from_le_bytes([bytes[at], bytes[at + 1]])
}

// The two bytes of a number.
pub fn low_byte(v: u16) -> u8
    ensures { result ≡ v % 256 }
{
    v.to_le_bytes()[0]
}

pub fn high_byte(v: u16) -> u8
    ensures { result ≡ v / 256 % 256 }
{
    v.to_le_bytes()[1]
}
