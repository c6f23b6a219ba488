// Numbers of 16 and 32 bits, the most significant octet first.
ghost use Rattle.std.specs.Prelude.{◌≡◌, ◌+◌, ◌<◌, min};
ghost use Rattle.octets.specs.Numbers.{octet, word16, word32, octets16, octets32};

use crate::copy::behind;

// How many values an octet has.
pub const VALUES: u16 = 256;

// An octet as a wider number.
pub fn wide(x: u8) -> u16
    ensures { (result ≡ x) × (result < 256) }
{
    u16::from(x)
}

// The octet at a place, and 0 past the end.
pub fn octet_at(s: &[u8], at: usize) -> u16
    ensures { (result ≡ octet s.now at) × (result < 256) }
{
    wide(one(s, at))
}

// The same as one octet.
pub fn one(s: &[u8], at: usize) -> u8
    ensures { result ≡ octet s.now at }
{
    s.get(at).copied().unwrap_or(0)
}

// The lesser of two numbers.
pub fn least(a: usize, b: usize) -> usize
    ensures { result ≡ min a b }
{
    a.min(b)
}

// The sum of two numbers, and no more than a third.
pub fn least_sum(a: usize, b: usize, most: usize) -> usize
    ensures { result ≡ min (a + b) most }
{
    a.saturating_add(b).min(most)
}

// The number of 16 bits at a place; octets past the end count as 0.
pub fn word16_at(s: &[u8], at: usize) -> u16
    ensures { result ≡ word16 s.now at }
{
    let rest = behind(s, at);
    u16::from_be_bytes([one(rest, 0), one(rest, 1)])
}

// The number of 32 bits at a place; octets past the end count as 0.
pub fn word32_at(s: &[u8], at: usize) -> u32
    ensures { result ≡ word32 s.now at }
{
    let rest = behind(s, at);
    u32::from_be_bytes([one(rest, 0), one(rest, 1), one(rest, 2), one(rest, 3)])
}

// The two octets of a number.
pub fn octets_of16(x: u16) -> [u8; 2]
    ensures { result ≡ octets16 x }
{
    x.to_be_bytes()
}

// The four octets of a number.
pub fn octets_of32(x: u32) -> [u8; 4]
    ensures { result ≡ octets32 x }
{
    x.to_be_bytes()
}
