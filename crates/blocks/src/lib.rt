// Application data of service 6: its blocks, and whether it is well formed.
#![tactic(auto)]

pub mod reading;
pub mod shape;

// A block of service 6 data.
#[derive(Clone, Copy)]
pub struct Block {
    // Where it begins in the application data.
    pub at: usize,
    // The address of its first word.
    pub start: u32,
    // How many words it is long.
    pub words: u16,
    // Where the next block begins.
    pub next: usize,
}

// The octets before the first block: the memory ID and N.
pub const FIRST: usize = 2;

// The octets of a block's start and length.
pub const HEADER: usize = 6;

// The most blocks.
pub const BLOCKS_MOST: u16 = 8;
