// A TM line in digits beside the frame that is due there: where they part, and whether they agree.
#![tactic(auto)]

ghost use Rattle.std.specs.Prelude.{◌≡◌, not, ◌||◌, eqb};
ghost use Rattle.characters.specs.Digits.{octets_in};
ghost use Rattle.beside.specs.Beside.{is_time, parting_of, agrees};

use tm::{TIME_END, TIME_FIRST};

// Whether an octet of a frame is the time's.
fn is_time(k: usize) -> bool
    ensures { result ≡ is_time k }
{
    (TIME_FIRST..TIME_END).contains(&k)
}

// Whether a frame and a line part at an octet, which is so in the one and so in the other: it is none of the time's, and not the same.
fn parts(k: usize, x: u8, y: u8) -> bool
    ensures { result ≡ not (is_time k || eqb x y) }
{
    !is_time(k) && x != y
}

// The first octet, from 0, at which the frame due and the octets of a line differ, the time's aside, or at which one of them ends.
pub fn parting(due: &[u8], line: &[u8]) -> usize
    ensures { result ≡ parting_of due.now (octets_in line.now) }
{
    let (found, _) = line.as_chunks::<2>();
    let most = due.len().min(found.len());
    for (k, x) in due[..most].iter().enumerate() {
        let [high, low] = found[k];
        if parts(k, *x, characters::octet(high, low)) {
            return k;
        }
    }
    most
}

// Whether they agree: they end at one place, and before it differ in nothing but the time.
#[tactic(auto, using(crate::proofs::Places::parted_before, crate::proofs::Places::parted_behind))]
pub fn agree(due: &[u8], line: &[u8]) -> bool
    ensures { result ≡ agrees due.now (octets_in line.now) }
{
    parting(due, line) == due.len() && due.len() == line.len() / 2
}
