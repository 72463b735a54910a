// What a store and a delete ask of the model and answer.
use crate::model::blocks::BLOCK;
use crate::model::claims::{Claims, Failure};
use crate::model::packing::Packer;
use crate::model::tree::{BLOCK_BITS, DEPTH, DIRECTORY_BLOCKS, Leaf, hash_of, low, set_bit};
use crate::model::{Model, Page};
use calls::Mode;
use faults::{Fault, Layer, Refusal};

// A key and its value may not be longer.
const LONGEST_PAIR: usize = 1008;

// A store makes no more splits.
const MOST_SPLITS: u32 = 10;

// Stores a pair. Gives how many splits were made.
pub fn store(
    model: &mut Model,
    claims: &mut Claims,
    key: &[u8],
    value: &[u8],
    mode: Mode,
) -> Result<u32, Failure> {
    if key.is_empty() {
        return Err(refused(Refusal::EmptyKey, 0).into());
    }
    if key.len().saturating_add(value.len()) > LONGEST_PAIR {
        return Err(refused(Refusal::PairTooLong, 0).into());
    }
    let leaf = model.look_up(hash_of(key))?;
    let page = model.read_page(leaf.page)?;
    let home = block_of(leaf.page);
    if mode == Mode::Insert && page.find(key).is_some() {
        return Err(refused(Refusal::KeyExists, home).into());
    }
    let splits = plan(&page, key, value, leaf.depth).ok_or(refused(Refusal::NoPlan, home))?;
    check_under(model, leaf, key, splits)?;
    claim_all(model, claims, leaf, key, splits)?;
    let end = split_all(model, claims, &page, leaf, key, splits)?;
    let mut packer = pack(&page, end, Some(key));
    packer.add(key, value);
    claims.write(model, block_of(end.page), &packer.bytes)?;
    Ok(splits)
}

// Deletes a key, and says whether it was there.
pub fn delete(model: &mut Model, claims: &mut Claims, key: &[u8]) -> Result<bool, Failure> {
    if key.is_empty() {
        return Err(refused(Refusal::EmptyKey, 0).into());
    }
    let leaf = model.look_up(hash_of(key))?;
    let page = model.read_page(leaf.page)?;
    if page.find(key).is_none() {
        return Ok(false);
    }
    let rest = pack(&page, leaf, Some(key));
    claims.write(model, block_of(leaf.page), &rest.bytes)?;
    Ok(true)
}

fn refused(refusal: Refusal, block: u32) -> Fault {
    Layer::Database.fault(refusal, block)
}

fn block_of(page: u32) -> u32 {
    DIRECTORY_BLOCKS.saturating_add(page)
}

// The least number of splits that leaves room for the pair beside those that stay on its page.
fn plan(page: &Page, key: &[u8], value: &[u8], depth: u32) -> Option<u32> {
    let most = MOST_SPLITS.min(DEPTH.saturating_sub(depth));
    (0..=most).find(|splits| bytes_with(page, key, value, depth.saturating_add(*splits)) <= BLOCK)
}

// How many bytes the key's page needs at a depth, with the pair.
fn bytes_with(page: &Page, key: &[u8], value: &[u8], depth: u32) -> usize {
    let mut sum = size(key, value).saturating_add(2);
    for pair in page.pairs.as_slice() {
        let other = pair.key_of(&page.bytes);
        if other != key && low(hash_of(other), depth) == low(hash_of(key), depth) {
            sum = sum.saturating_add(size(other, pair.value_of(&page.bytes)));
        }
    }
    sum
}

// How many bytes a pair takes.
fn size(key: &[u8], value: &[u8]) -> usize {
    key.len().saturating_add(value.len()).saturating_add(4)
}

// Reads the bits under those that the splits set, up to one that is set.
fn check_under(model: &mut Model, leaf: Leaf, key: &[u8], splits: u32) -> Result<(), Fault> {
    let mut at = leaf;
    let mut last = leaf.index / BLOCK_BITS;
    for _ in 0..splits {
        if at.depth.saturating_add(1) >= DEPTH {
            break;
        }
        let first = at.index.saturating_mul(2).saturating_add(1);
        for index in [first, first.saturating_add(1)] {
            model.turn_to(index, &mut last)?;
            if model.bit(index) {
                return Err(refused(Refusal::BitBelow, at.index / BLOCK_BITS));
            }
        }
        at = at.half(hash_of(key));
    }
    Ok(())
}

// Claims the home page, and for each split the upper page and the directory block of its bit.
fn claim_all(
    model: &mut Model,
    claims: &mut Claims,
    leaf: Leaf,
    key: &[u8],
    splits: u32,
) -> Result<(), Failure> {
    claims.claim(model, block_of(leaf.page))?;
    let mut at = leaf;
    for _ in 0..splits {
        claims.claim(model, block_of(at.upper()))?;
        claims.claim(model, at.index / BLOCK_BITS)?;
        at = at.half(hash_of(key));
    }
    Ok(())
}

// Writes the splits: the upper page, the bit, and the lower page of each. Gives where the lookup of the key ends then.
fn split_all(
    model: &mut Model,
    claims: &mut Claims,
    page: &Page,
    leaf: Leaf,
    key: &[u8],
    splits: u32,
) -> Result<Leaf, Failure> {
    let mut at = leaf;
    for _ in 0..splits {
        let depth = at.depth.saturating_add(1);
        let upper = Leaf {
            page: at.upper(),
            depth,
            ..at
        };
        let lower = Leaf { depth, ..at };
        claims.write(model, block_of(upper.page), &pack(page, upper, None).bytes)?;
        set_bit_of(model, claims, at.index)?;
        claims.write(model, block_of(lower.page), &pack(page, lower, None).bytes)?;
        at = at.half(hash_of(key));
    }
    Ok(at)
}

// Writes the block of a directory bit, with the bit set.
fn set_bit_of(model: &mut Model, claims: &mut Claims, index: u32) -> Result<(), Failure> {
    let n = index / BLOCK_BITS;
    let mut block = model.block(n);
    set_bit(&mut block, index % BLOCK_BITS);
    claims.write(model, n, &block)
}

// The pairs of a page that belong to a leaf, but for one key.
fn pack(page: &Page, leaf: Leaf, but: Option<&[u8]>) -> Packer {
    let mut packer = Packer::new([0; BLOCK]);
    for pair in page.pairs.as_slice() {
        let key = pair.key_of(&page.bytes);
        if low(hash_of(key), leaf.depth) == leaf.page && but != Some(key) {
            packer.add(key, pair.value_of(&page.bytes));
        }
    }
    packer
}
