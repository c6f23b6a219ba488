// Copying octets into a buffer, and a part of a slice.
ghost use Rattle.std.specs.Prelude.{◌≡◌, ◌-◌, min, length, drop};
ghost use Rattle.octets.specs.Copy.{laid, between, Hands};

// A part of a slice, by the places where it begins and ends.
#[derive(Clone, Copy)]
pub struct Span {
    pub from: usize,
    pub to: usize,
}

// Lays octets over a buffer's own from a place on and answers how many they are; those that would stand past its end are dropped.
#[tactic(auto, using(crate::proofs::Laid::laid_stored))]
pub fn put(buffer: &mut [u8], at: usize, octets: &[u8]) -> usize
    ensures { (result ≡ length octets.now) × (buffer.new ≡ laid buffer.old at octets.now) }
{
    let place = at.min(buffer.len());
    let count = fitting(buffer.len(), at, octets.len());
    buffer[place..place + count].copy_from_slice(&octets[..count]);
    octets.len()
}

// How many of some octets have room in a buffer of that length from a place on.
pub fn fitting(length: usize, at: usize, wanted: usize) -> usize
    ensures { result ≡ min wanted (length - at) }
{
    wanted.min(length.saturating_sub(at))
}

// The octets of a slice from a place up to another, and none where the two do not lie in it in that order.
#[tactic(auto, unfolding(crate::specs::Copy::between))]
pub fn part(s: &[u8], start: usize, end: usize) -> &[u8]
    ensures { result.now ≡ between start end s.now }
{
    s.get(start..end).unwrap_or(&[])
}

// The octets of a slice that a part names.
pub fn placed(s: &[u8], p: Span) -> &[u8]
    ensures { Hands p s.now result.now }
{
    part(s, p.from, p.to)
}

// What stands behind so many octets of a slice, and nothing where it has no more.
pub fn behind(s: &[u8], count: usize) -> &[u8]
    ensures { result.now ≡ drop count s.now }
{
    s.get(count..).unwrap_or(&[])
}
