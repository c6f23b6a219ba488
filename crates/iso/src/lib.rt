// The ISO checksum of ECSS-E-70-41A's annex over any octets.
#![tactic(auto)]

ghost use Rattle.std.specs.Prelude.{◌≡◌, ◌≤◌};
ghost use Rattle.iso.specs.Checksum.{sums_of, minus, sent, iso_of};

use octets::numbers::VALUES;

// What both sums are before the first octet, and what is sent for a 0.
const ALL_ONES: u16 = 0xFF;

// What both sums are taken modulo.
const MODULUS: u16 = 255;

// The two sums.
#[derive(Clone, Copy)]
struct Sums {
    c0: u16,
    c1: u16,
}

// The checksum: CK1, and behind it CK2.
#[tactic(auto, unfolding(crate::specs::Checksum::iso_of))]
pub fn checksum(octets: &[u8]) -> u16
    ensures { result ≡ iso_of octets.now }
{
    let sums = sums_of(octets);
    let ck1 = sent(minus(sums.c0 + sums.c1));
    let ck2 = sent(sums.c1 % MODULUS);
    ck1 * VALUES + ck2
}

// The sums over some octets.
#[tactic(auto, using(crate::proofs::Laws::sums_more), unfolding(laws::specs::Fold::reached, crate::specs::Checksum::added, crate::specs::Checksum::sums_of))]
fn sums_of(octets: &[u8]) -> Sums
    ensures { (result ≡ sums_of octets.now) × (result.c0 ≤ 255) × (result.c1 ≤ 255) }
{
    let mut c0 = ALL_ONES;
    let mut c1 = ALL_ONES;
    for octet in octets {
        c0 = (c0 + u16::from(*octet)) % MODULUS;
        c1 = (c1 + c0) % MODULUS;
    }
    Sums { c0, c1 }
}

// Minus a number, modulo 255.
fn minus(n: u16) -> u16
    ensures { result ≡ minus n }
{
    (MODULUS - n % MODULUS) % MODULUS
}

// What is sent of a sum: a 0 as FF.
fn sent(sum: u16) -> u16
    ensures { result ≡ sent sum }
{
    if sum == 0 { ALL_ONES } else { sum }
}
