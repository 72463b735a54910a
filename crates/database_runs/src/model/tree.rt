// The directory, and where the lookup of a hash in it ends.
ghost use Rattle.std.specs.Prelude.{◌<◌};

use crate::model::blocks::{byte_at, put_byte};

// What the format gives: how many blocks and bytes the directory has, how many bits a block of it, how many bits count, how
// deep a lookup goes, and how many pages there are.
pub const DIRECTORY_BLOCKS: u32 = 4;

pub const DIRECTORY: usize = 4096;

pub const BLOCK_BITS: u32 = 8192;

const BITS: u32 = 32_767;

pub const DEPTH: u32 = 15;

pub const PAGES: u32 = 32_768;

// Where a lookup ends.
#[derive(Clone, Copy)]
pub struct Leaf {
    pub index: u32,
    pub depth: u32,
    pub page: u32,
}

impl Leaf {
    // Where the lookup of a hash would end next, were the bit here set.
    pub fn half(&self, hash: u32) -> Leaf {
        let depth = self.depth.saturating_add(1);
        Leaf {
            index: under(self.index, hash, self.depth),
            depth,
            page: low(hash, depth),
        }
    }

    // The page to which pairs go where it is split.
    pub fn upper(&self) -> u32 {
        self.page.saturating_add(power(self.depth))
    }
}

// The page at which the lookup of a hash ends.
pub fn home_of(directory: &[u8; DIRECTORY], hash: u32) -> u32 {
    let mut index = 0u32;
    for depth in 0..DEPTH {
        if !is_set(directory, index) {
            return low(hash, depth);
        }
        index = under(index, hash, depth);
    }
    low(hash, DEPTH)
}

// Whether a bit of the directory is set; the last one does not count.
pub fn is_set(directory: &[u8; DIRECTORY], index: u32) -> bool {
    index < BITS && byte_at(directory, (index / 8) as usize) >> (index % 8) & 1 == 1
}

// Sets a bit of the directory, or of a block of it.
pub fn set_bit(bytes: &mut [u8], index: u32) {
    let at = (index / 8) as usize;
    let byte = byte_at(bytes, at) | 1 << (index % 8);
    put_byte(bytes, at, byte);
}

// The index under an index that the next hash bit names.
pub fn under(index: u32, hash: u32, depth: u32) -> u32 {
    index
        .saturating_mul(2)
        .saturating_add(1)
        .saturating_add(bit(hash, depth))
}

fn bit(hash: u32, depth: u32) -> u32 {
    hash / power(depth) % 2
}

pub fn low(hash: u32, depth: u32) -> u32 {
    hash % power(depth)
}

// The power of two of a depth.
fn power(depth: u32) -> u32
    ensures { 0 < result }
{
    1 << depth.min(DEPTH)
}

// The hash of a key: a sum of its bytes, each multiplied by a power of 65,599, modulo 2^32.
pub fn hash_of(key: &[u8]) -> u32 {
    let mut sum = 0u64;
    for byte in key {
        sum = sum.wrapping_mul(65_599).wrapping_add(u64::from(*byte)) % 0x1_0000_0000;
    }
    (sum & 0xffff_ffff) as u32
}
