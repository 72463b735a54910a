// Random databases: their blocks, and the keys that were put on their pages.
use crate::model::blocks::{BLOCK, Numbered, number_at, put_byte, put_number};
use crate::model::packing::{Entry, Packer};
use crate::model::tree::{DIRECTORY, DIRECTORY_BLOCKS, hash_of, home_of, set_bit, under};
use crate::random::Random;
use std::alloc::AllocError;

// What a database is like: every pair at home, strays among them, or bytes changed anywhere.
#[derive(Clone, Copy, PartialEq, Eq, Debug)]
pub enum State {
    Good,
    Stray,
    Damaged,
}

// Pages are made up to so many.
const MOST_PAGES: usize = 40;

// A page while pairs are put on it.
#[derive(Drop)]
struct Page {
    number: u32,
    room: usize,
    pairs: Vec<Entry>,
}

// A database: its blocks, none of which is stale, and its keys.
#[derive(Drop)]
pub struct Made {
    pub blocks: Vec<Numbered>,
    pub keys: Vec<Vec<u8>>,
}

// A database with pages below a number.
pub fn random_database(random: &mut Random, state: State, pages: u32) -> Result<Made, AllocError> {
    let mut directory = random_directory(random);
    let mut made = Made {
        blocks: Vec::new(random.heap),
        keys: Vec::new(random.heap),
    };
    let mut open = Vec::new(random.heap);
    for _ in 0..random.below(150).saturating_add(10) {
        let key = random_key(random)?;
        let home = home_of(&directory, hash_of(key.as_slice()));
        if home < pages {
            put_pair(random, &mut open, home, key.as_slice(), false)?;
        }
        if state != State::Good && random.one_in(4) {
            let other = any_page(random, &open);
            let twice = state == State::Damaged && random.one_in(8);
            put_pair(random, &mut open, other, key.as_slice(), twice)?;
        }
        made.keys.push(key)?;
    }
    if state == State::Damaged && random.one_in(3) {
        let at = random.below(64);
        put_byte(&mut directory, at as usize, random.byte());
    }
    push_directory(&mut made, &directory)?;
    for page in open.iter() {
        let mut bytes = packed(random, page);
        if state == State::Damaged && random.one_in(3) {
            damage(random, &mut bytes);
        }
        made.blocks.push(Numbered {
            number: DIRECTORY_BLOCKS.saturating_add(page.number),
            bytes,
            stale: false,
        })?;
    }
    Ok(made)
}

// A directory as splits make it, some of them deep.
fn random_directory(random: &mut Random) -> [u8; DIRECTORY] {
    let mut directory = [0; DIRECTORY];
    for _ in 0..random.below(14) {
        let hash = random.below(u32::MAX);
        let depth = if random.one_in(8) {
            random.below(16)
        } else {
            random.below(6)
        };
        let mut index = 0;
        for t in 0..depth {
            set_bit(&mut directory, index);
            index = under(index, hash, t);
        }
    }
    directory
}

fn push_directory(made: &mut Made, directory: &[u8; DIRECTORY]) -> Result<(), AllocError> {
    let (blocks, _) = directory.as_chunks::<BLOCK>();
    let mut number = 0u32;
    for bytes in blocks {
        made.blocks.push(Numbered {
            number,
            bytes: *bytes,
            stale: false,
        })?;
        number = number.saturating_add(1);
    }
    Ok(())
}

// A short key of few letters, or of any bytes.
fn random_key(random: &mut Random) -> Result<Vec<u8>, AllocError> {
    let len = random.below(12).saturating_add(1) as usize;
    let mut key = random.bytes(len)?;
    if !random.one_in(6) {
        for byte in key.iter_mut() {
            *byte = b'a' + *byte % 6;
        }
    }
    Ok(key)
}

// A value: often as long as a record's code, and seldom very long.
fn random_value(random: &mut Random) -> Result<Vec<u8>, AllocError> {
    let len = match random.below(20) {
        0..=8 => 10,
        9..=15 => 9,
        16..=17 => 0,
        18 => random.below(30),
        _ => random.below(700),
    };
    let mut value = random.bytes(len as usize)?;
    if let [.., last] = value.as_mut_slice() {
        if len == 9 {
            *last %= 4;
        }
    }
    Ok(value)
}

// The number of a page that there is, or of another one.
fn any_page(random: &mut Random, open: &Vec<Page>) -> u32 {
    let count = u32::try_from(open.len()).unwrap_or(0);
    let place = random.below(count) as usize;
    open.get(place).map_or(0, |page| page.number)
}

// Puts a pair on a page, if it has room and not yet the key (or is to have it twice), and if there is the page or may be one more.
fn put_pair(
    random: &mut Random,
    open: &mut Vec<Page>,
    number: u32,
    key: &[u8],
    twice: bool,
) -> Result<(), AllocError> {
    if !open.iter().any(|page| page.number == number) {
        if open.len() >= MOST_PAGES {
            return Ok(());
        }
        open.push(Page {
            number,
            room: BLOCK - 2,
            pairs: Vec::new(random.heap),
        })?;
    }
    let value = random_value(random)?;
    let size = key.len().saturating_add(value.len()).saturating_add(4);
    for page in open.iter_mut() {
        if page.number == number {
            let there = page.pairs.iter().any(|pair| pair.key.as_slice() == key);
            if (twice || !there) && size <= page.room {
                let key = key.to_vec(random.heap)?;
                page.pairs.push(Entry { key, value })?;
                page.room = page.room.saturating_sub(size);
            }
            return Ok(());
        }
    }
    Ok(())
}

// The bytes of a page. What stands in its free middle does not matter.
fn packed(random: &mut Random, page: &Page) -> [u8; BLOCK] {
    let mut bytes = [0; BLOCK];
    if random.one_in(2) {
        for byte in bytes.iter_mut() {
            *byte = random.byte();
        }
    }
    let mut packer = Packer::new(bytes);
    for pair in page.pairs.iter() {
        packer.add(pair.key.as_slice(), pair.value.as_slice());
    }
    packer.bytes
}

// Does something to a page that mostly leaves it not good: another count, another offset, other bytes, a key twice, or
// offsets that meet the values.
fn damage(random: &mut Random, bytes: &mut [u8; BLOCK]) {
    let count = number_at(bytes, 0);
    let pairs = u32::try_from(count / 2).unwrap_or(0);
    let at = random.below(pairs).saturating_mul(4).saturating_add(2) as usize;
    let number = number_at(bytes, at);
    let before = number_at(bytes, at.saturating_sub(2));
    match random.below(8) {
        0 => put_number(bytes, 0, count.saturating_add(1)),
        1 => put_number(bytes, 0, count.saturating_add(2)),
        2 => put_number(bytes, 0, 512),
        3 => put_number(bytes, at, number.saturating_add(1)),
        4 => put_number(bytes, at, number.saturating_sub(1)),
        5 => put_number(bytes, at, before),
        6 => {
            let last = count.saturating_mul(2);
            put_number(
                bytes,
                last,
                count
                    .saturating_mul(2)
                    .saturating_add(random.below(4) as usize),
            );
        }
        _ => {
            for _ in 0..random.below(6) {
                let place = random.below(1024) as usize;
                put_byte(bytes, place, random.byte());
            }
        }
    }
}
