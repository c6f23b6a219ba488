// What service 6 does on an area: a load's words written into the store, and what a check says of the words that stand there.
#![tactic(auto)]

ghost use Rattle.std.specs.Prelude.{◌≡◌};
ghost use Rattle.blocks.specs.Blocks.{blocks_of};
ghost use Rattle.requests.specs.declared.Action.TheVariants.{Load};
ghost use Rattle.requests.specs.Request.{carried_by};
ghost use Rattle.memory.specs.Memory.{loaded, entry_of, LaysEntries};

use blocks::Block;
use map::Area;
use requests::Action;

// Writes the blocks of a load into the store, in order.
#[tactic(auto, using(crate::proofs::Walking::loaded_next, crate::proofs::Walking::loaded_none))]
pub fn load(area: Area, application: &[u8], store: &mut [u8])
    ensures { store.new ≡ loaded area application.now (blocks_of (carried_by Load) application.now) store.old }
{
    let carried = requests::carried_by(Action::Load);
    for block in blocks::reading::blocks(carried, application) {
        let at = map::place::octet_at(area, block.start);
        octets::copy::put(store, at, blocks::reading::words(application, block));
    }
}

// Lays the entries of (6,10) from a place on, and answers how many octets they are.
#[tactic(auto, using(crate::proofs::Walking::entries_none, blocks::proofs::Blocks::blocks_length))]
pub fn entries(area: Area, application: &[u8], store: &[u8], at: u32, out: &mut [u8]) -> usize
    ensures { LaysEntries area application.now store.now at out.old result out.new }
{
    let carried = requests::carried_by(Action::Check);
    let mut octets = 0;
    for block in blocks::reading::blocks(carried, application) {
        let entry = entry(area, store, block);
        octets += octets::copy::put(out, at as usize + octets, &entry);
    }
    octets
}

// The entry of a block.
fn entry(area: Area, store: &[u8], block: Block) -> [u8; 8]
    ensures { result ≡ entry_of area store.now block }
{
    let covered = map::place::stored(area, store, block.start, u32::from(block.words));
    let value = crc::crc(crc::ALL_ONES, covered);
    reports::check_entry(block.start, block.words, value)
}
