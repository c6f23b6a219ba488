// Whether application data of service 6 is well formed, and if not the detail of refusal 5.
ghost use Rattle.std.specs.Prelude.{◌≡◌};
ghost use Rattle.blocks.specs.Form.{block_right, head_right, form_of};

use super::reading::{block_at, block_count};
use super::{BLOCKS_MOST, Block, FIRST, HEADER};

// At least 2 octets are there, and N is 1 to 8.
#[tactic(auto, unfolding(crate::specs::Form::head_right))]
pub fn head_right(application: &[u8]) -> bool
    ensures { result ≡ head_right application.now }
{
    let count = u16::from(block_count(application));
    FIRST <= application.len() && 1 <= count && count <= BLOCKS_MOST
}

// No block is cut off or of a bad length, and no octet is left over. A block is at most so many words long, and carries so many octets for each.
// The detail is the first bad block, from 1, and 0 where none is at fault.
pub fn form(carried: u8, most: u16, application: &[u8]) -> Result<(), u16>
    ensures { result ≡ form_of carried most application.now }
{
    // One walk by the place tells both, the first bad block and where the last one ends: a walk for each takes twice as long.
    let mut place = FIRST;
    for others in 0..block_count(application) {
        let block = block_at(carried, application, place);
        if !block_right(most, application.len(), block) {
            return Err(u16::from(others) + 1);
        }
        place = block.next;
    }
    if place == application.len() {
        Ok(())
    } else {
        Err(0)
    }
}

// A block is not cut off and has no bad length, in application data of that many octets.
#[tactic(auto, using(crate::proofs::Blocks::header_room), unfolding(crate::specs::Form::block_right))]
fn block_right(most: u16, octets: usize, block: Block) -> bool
    ensures { result ≡ block_right most octets block }
{
    HEADER <= octets.saturating_sub(block.at)
        && 1 <= block.words
        && block.words <= most
        && block.next <= octets
}
