// A block of service 6 data read at its place, the blocks one after another, and the words that a block carries.
ghost use Rattle.std.specs.Prelude.{◌≡◌, ◌<◌, Bool, map, length};
ghost use Rattle.laws.specs.First.{first_wrong, wrong_number};
ghost use Rattle.blocks.specs.declared.Block.{Block};
ghost use Rattle.blocks.specs.Blocks.{block_at, block_behind, memory_id, block_count, blocks_of, blocks_left, words_of};

use super::{Block, FIRST, HEADER};

// The blocks of application data that are still to come, one after another, where a word has so many octets in it.
#[derive(Drop)]
pub struct Walk<'a> {
    carried: u8,
    application: &'a [u8],
    // Where the next one begins.
    place: usize,
    // How many are left.
    left: u8,
}

// The memory ID, the first octet.
pub fn memory_id(application: &[u8]) -> u8
    ensures { result ≡ memory_id application.now }
{
    octets::numbers::one(application, 0)
}

// N, the second octet.
pub fn block_count(application: &[u8]) -> u8
    ensures { result ≡ block_count application.now }
{
    octets::numbers::one(application, 1)
}

// The N blocks, where a word has so many octets in the application data.
#[tactic(auto, using(crate::proofs::Blocks::blocks_length))]
pub fn blocks(carried: u8, application: &[u8]) -> Walk<'_>
    ensures all { blocks_left result ≡ blocks_of carried application.now }
    ensures few { length (blocks_left result) < 256 }
{
    Walk {
        carried,
        application,
        place: FIRST,
        left: block_count(application),
    }
}

impl Iterator for Walk<'_> {
    ghost use Rattle.std.specs.Iterator.{YieldsFirst, item_count};
    ghost use Rattle.blocks.specs.Blocks.{blocks_left};

    type Item = Block;

    ghost next_gives = { YieldsFirst blocks_left };

    ghost remaining = { item_count blocks_left };

    #[tactic(auto, using(crate::proofs::Blocks::blocks_step, crate::proofs::Blocks::blocks_none, crate::proofs::Blocks::blocks_length))]
    fn next(&mut self) -> Option<Block> {
        self.left = self.left.checked_sub(1)?;
        let block = block_at(self.carried, self.application, self.place);
        self.place = block.next;
        Some(block)
    }
}

// A test of a block. It is a trait and no closure: of a closure a caller would have to show that it may be called.
pub trait Test {
    // What it answers.
    ghost test: { Self → Block → Bool };

    fn passes(&self, block: Block) -> bool
        ensures { result ≡ test self.now block };
}

// The number, from 1, of the first block that fails a test.
pub fn first_wrong<T: Test>(carried: u8, application: &[u8], test: &T) -> Option<u16>
    ensures { result ≡ wrong_number (first_wrong (map (T.test test.now) (blocks_of carried application.now))) }
{
    let others = blocks(carried, application).position(|block| !test.passes(block))?;
    Some(others as u16 + 1)
}

// The block at a place of the application data: start (4 octets), length in words (2), then so many octets for each word.
// A place past the end counts as the end, and octets past the end as 0.
#[tactic(auto, unfolding(crate::specs::Blocks::block_at))]
pub fn block_at(carried: u8, application: &[u8], place: usize) -> Block
    ensures { result ≡ block_at carried application.now place }
{
    let at = place.min(application.len());
    let words = octets::numbers::word16_at(application, at + 4);
    Block {
        at,
        start: octets::numbers::word32_at(application, at),
        words,
        next: at + HEADER + usize::from(words) * usize::from(carried),
    }
}

// The block behind so many others: the first stands behind the memory ID and N, any other where the one before it ends.
#[tactic(auto, unfolding(crate::specs::Blocks::block_behind))]
pub fn block_behind(carried: u8, application: &[u8], others: u16) -> Block
    ensures { result ≡ block_behind carried application.now others }
{
    let mut block = block_at(carried, application, FIRST);
    for _ in 0..others {
        block = block_at(carried, application, block.next);
    }
    block
}

// The words that a block carries, as a part of the application data; none where the block does not lie in it.
#[tactic(auto, using(octets::proofs::Between::between_past), unfolding(crate::specs::Blocks::words_of))]
pub fn words<'a>(application: &'a [u8], block: Block) -> &'a [u8]
    ensures { result.now ≡ words_of application.now block }
{
    octets::copy::part(application, block.at.saturating_add(HEADER), block.next)
}
