// Bits of the directory that are set under clear ones.
use crate::model::blocks::Numbered;
use crate::model::tree::{BLOCK_BITS, hash_of, set_bit, under};
use crate::random::Random;

// Sets some bits on the ways of keys, at any depth, in the blocks of a database.
pub fn set_bits_below(random: &mut Random, blocks: &mut [Numbered], keys: &[Vec<u8>]) {
    let count = u32::try_from(keys.len()).unwrap_or(0);
    for _ in 0..random.below(12) {
        let place = random.below(count) as usize;
        let Some(key) = keys.get(place) else {
            continue;
        };
        let index = index_at(hash_of(key.as_slice()), random.below(15));
        for block in blocks.iter_mut() {
            if block.number == index / BLOCK_BITS {
                set_bit(&mut block.bytes, index % BLOCK_BITS);
            }
        }
    }
}

// The index on the way of a hash at a depth.
fn index_at(hash: u32, depth: u32) -> u32 {
    (0..depth).fold(0, |index, t| under(index, hash, t))
}
