// Random keys, values and records: keys whose hashes agree in many low bits, short and long ones; and values of every length.
use crate::model::tree::hash_of;
use crate::random::Random;
use records::{Member, Record, Sort, Symbol};
use std::alloc::{AllocError, Global};

// In how many low bits the hashes of a family of keys may agree. A database is split 10 times at once where they agree in 9, and
// a lookup tests 15.
const FAMILIES: [u32; 8] = [0, 3, 8, 9, 9, 12, 15, 16];

// A key and its value may not be longer.
const LONGEST_PAIR: u32 = 1008;

// Adds the keys of a few families around the same hash, and some short and long ones.
pub fn add_keys(random: &mut Random, keys: &mut Vec<Vec<u8>>) -> Result<(), AllocError> {
    let hash = random.below(u32::MAX);
    for _ in 0..random.below(4).saturating_add(1) {
        let which = random.below(8) as usize;
        let bits = FAMILIES.get(which).copied().unwrap_or(0);
        for _ in 0..random.below(10).saturating_add(3) {
            keys.push(key_near(random, hash, bits)?)?;
        }
    }
    for _ in 0..random.below(10) {
        let len = random.below(2).saturating_add(1) as usize;
        keys.push(random.bytes(len)?)?;
    }
    let len = random.below(1100) as usize;
    keys.push(random.bytes(len)?)?;
    Ok(())
}

// A key whose hash agrees with another in so many low bits: the last byte sees to eight of them, and trying to the others.
fn key_near(random: &mut Random, hash: u32, bits: u32) -> Result<Vec<u8>, AllocError> {
    let len = key_length(random);
    let mut key = random.bytes(len)?;
    for _ in 0..MOST_TRIES {
        let last = hash.wrapping_sub(hash_of(key.as_slice()).wrapping_mul(65_599));
        key.push((last & 255) as u8)?;
        if agree(hash_of(key.as_slice()), hash, bits) {
            break;
        }
        key = random.bytes(len)?;
    }
    Ok(key)
}

const MOST_TRIES: u32 = 20_000;

// Whether two hashes agree in so many low bits.
fn agree(one: u32, other: u32, bits: u32) -> bool {
    (one ^ other).trailing_zeros() >= bits
}

// Seldom long.
fn key_length(random: &mut Random) -> usize {
    let most = if random.one_in(12) { 300 } else { 12 };
    random.below(most).saturating_add(2) as usize
}

// A value for a key: short, middling or long, sometimes as long as it may be with the key, or longer.
pub fn random_value(random: &mut Random, key: &[u8]) -> Result<Vec<u8>, AllocError> {
    let room = LONGEST_PAIR.saturating_sub(u32::try_from(key.len()).unwrap_or(u32::MAX));
    let len = match random.below(24) {
        0..=5 => random.below(30),
        6..=11 => random.below(120).saturating_add(60),
        12..=16 => random.below(250).saturating_add(150),
        17..=19 => random.below(500).saturating_add(400).min(room),
        20 => room,
        21 => room.saturating_add(1),
        22 => random.below(1500),
        _ => 0,
    };
    random.bytes(len as usize)
}

// A kind of record, made and coded anew.
pub trait Coded: Record + Drop {
    fn random(random: &mut Random) -> Self;

    fn coded(&self, heap: Global) -> Result<Vec<u8>, AllocError>;
}

impl Coded for Symbol {
    fn random(random: &mut Random) -> Symbol {
        Symbol {
            address: random.below(u32::MAX),
            section: u16::from_le_bytes([random.byte(), random.byte()]),
            addend: random.below(u32::MAX).cast_signed(),
        }
    }

    fn coded(&self, heap: Global) -> Result<Vec<u8>, AllocError> {
        let mut code = Vec::new(heap);
        code.extend_from_slice(&self.address.to_le_bytes())?;
        code.extend_from_slice(&self.section.to_le_bytes())?;
        code.extend_from_slice(&self.addend.cast_unsigned().to_le_bytes())?;
        Ok(code)
    }
}

impl Coded for Member {
    fn random(random: &mut Random) -> Member {
        Member {
            offset: random.below(u32::MAX),
            length: random.below(u32::MAX),
            sort: match random.below(3) {
                0 => Sort::Object,
                1 => Sort::Data,
                _ => Sort::Other,
            },
        }
    }

    fn coded(&self, heap: Global) -> Result<Vec<u8>, AllocError> {
        let mut code = Vec::new(heap);
        code.extend_from_slice(&self.offset.to_le_bytes())?;
        code.extend_from_slice(&self.length.to_le_bytes())?;
        code.push(match self.sort {
            Sort::Object => 0,
            Sort::Data => 1,
            Sort::Other => 2,
        })?;
        Ok(code)
    }
}
