// A plain model of a database on a stack of devices: the blocks that the stack shows, and what each call that reads answers of
// them.
pub mod blocks;
pub mod claims;
pub mod decoding;
pub mod packing;
pub mod storing;
pub mod trail;
pub mod tree;

use crate::model::blocks::{BLOCK, Numbered, put_bytes};
use crate::model::decoding::Plain;
use crate::model::packing::{Pair, Pairs, pairs_of};
use crate::model::trail::Trail;
use crate::model::tree::{
    BLOCK_BITS, DEPTH, DIRECTORY, DIRECTORY_BLOCKS, Leaf, PAGES, hash_of, home_of, is_set, low,
    under,
};
use database::{Position, Stepped};
use faults::{Fault, Layer, Refusal};
use pages::Place;
use std::alloc::AllocError;

// A page that was read, and its pairs.
#[derive(Clone, Copy)]
pub struct Page {
    pub bytes: [u8; BLOCK],
    pub pairs: Pairs,
}

impl Page {
    // The pair of a key.
    pub fn find(&self, key: &[u8]) -> Option<Pair> {
        self.pairs
            .as_slice()
            .iter()
            .find(|pair| pair.key_of(&self.bytes) == key)
            .copied()
    }
}

// A database on a stack, of which only this is known: who refuses on top, the limit, and the blocks that are no zeros.
#[derive(Drop)]
pub struct Model {
    pub layer: Layer,
    pub limit: u32,
    pub blocks: Vec<Numbered>,
    pub trail: Trail,
    directory: [u8; DIRECTORY],
}

impl Model {
    // A device with these blocks.
    pub fn new(limit: u32, blocks: Vec<Numbered>) -> Model {
        Model {
            layer: Layer::Bottom,
            limit,
            blocks,
            trail: Trail::default(),
            directory: [0; DIRECTORY],
        }
    }

    // Puts a window on top: the blocks from a base on, at most so many.
    pub fn add_window(&mut self, base: u32, length: u32) {
        let limit = length.min(self.limit.saturating_sub(base));
        self.blocks.retain(|block| block.number >= base && block.number - base < limit);
        for block in self.blocks.iter_mut() {
            block.number = block.number.saturating_sub(base);
        }
        self.limit = limit;
        self.layer = Layer::Window;
    }

    // Reads the directory, once the stack stands. Past the limit there are zeros.
    pub fn open(&mut self) {
        for n in 0..DIRECTORY_BLOCKS {
            let block = self.block(n);
            self.show(n, &block);
        }
    }

    // Takes a block over, if it is one of the directory.
    fn show(&mut self, n: u32, block: &[u8; BLOCK]) {
        if n < DIRECTORY_BLOCKS {
            put_bytes(&mut self.directory, BLOCK.saturating_mul(n as usize), block);
        }
    }

    pub fn block(&self, n: u32) -> [u8; BLOCK] {
        self.blocks
            .iter()
            .find(|block| block.number == n)
            .map_or([0; BLOCK], |block| block.bytes)
    }

    // Makes these bytes a block.
    pub fn put(&mut self, n: u32, bytes: &[u8; BLOCK]) -> Result<(), AllocError> {
        self.show(n, bytes);
        for block in self.blocks.iter_mut() {
            if block.number == n {
                block.bytes = *bytes;
                return Ok(());
            }
        }
        self.blocks.push(Numbered {
            number: n,
            bytes: *bytes,
            stale: false,
        })?;
        Ok(())
    }

    // A refusal by what stands on top.
    pub fn refused(&self, refusal: Refusal, n: u32) -> Fault {
        self.layer.fault(refusal, n)
    }

    // Whether a bit of the directory is set.
    pub fn bit(&self, index: u32) -> bool {
        is_set(&self.directory, index)
    }

    // A read of a block, which may be refused.
    pub fn read(&mut self, n: u32) -> Result<(), Fault> {
        self.trail.read(n);
        if n >= self.limit {
            return Err(self.refused(Refusal::PastLimit, n));
        }
        Ok(())
    }

    // A read of the block of a directory bit, unless it is the block that was read last.
    pub fn turn_to(&mut self, index: u32, last: &mut u32) -> Result<(), Fault> {
        let n = index / BLOCK_BITS;
        if n == *last {
            return Ok(());
        }
        *last = n;
        self.read(n)
    }

    // A page that is read, with its pairs.
    pub fn read_page(&mut self, p: u32) -> Result<Page, Fault> {
        let n = DIRECTORY_BLOCKS.saturating_add(p);
        self.read(n)?;
        let bytes = self.block(n);
        let pairs = pairs_of(&bytes).ok_or(Layer::Database.fault(Refusal::BadPage, n))?;
        Ok(Page { bytes, pairs })
    }

    // Where the lookup of a hash ends, with the reads of the directory: a block for the bit that is tested, unless it was read
    // for the bit before.
    pub fn look_up(&mut self, hash: u32) -> Result<Leaf, Fault> {
        let mut last = 0;
        self.read(last)?;
        let mut index = 0u32;
        for depth in 0..DEPTH {
            self.turn_to(index, &mut last)?;
            if !self.bit(index) {
                return Ok(Leaf {
                    index,
                    depth,
                    page: low(hash, depth),
                });
            }
            index = under(index, hash, depth);
        }
        Ok(Leaf {
            index,
            depth: DEPTH,
            page: low(hash, DEPTH),
        })
    }

    // The number of the key's home page, and that page.
    fn find(&mut self, key: &[u8], len: usize) -> Result<(u32, Page), Fault> {
        if key.is_empty() {
            return Err(Layer::Database.fault(Refusal::EmptyKey, 0));
        }
        if len != BLOCK {
            return Err(Layer::Database.fault(Refusal::NotABlock, 0));
        }
        let leaf = self.look_up(hash_of(key))?;
        Ok((leaf.page, self.read_page(leaf.page)?))
    }

    pub fn fetch(&mut self, key: &[u8], buffer: &mut [u8]) -> Result<Option<Place>, Fault> {
        let (_, page) = self.find(key, buffer.len())?;
        put_bytes(buffer, 0, &page.bytes);
        Ok(page.find(key).map(|pair| pair.value_place()))
    }

    pub fn get<R: Plain>(&mut self, key: &[u8], buffer: &mut [u8]) -> Result<Option<R>, Fault> {
        let (home, page) = self.find(key, buffer.len())?;
        let record = match page.find(key) {
            Some(pair) => Some(R::plainly(pair.value_of(&page.bytes)).ok_or(no_code(home))?),
            None => None,
        };
        put_bytes(buffer, 0, &page.bytes);
        Ok(record)
    }

    pub fn step(&mut self, at: Position, buffer: &mut [u8]) -> Result<Stepped, Fault> {
        let Some(buffer) = buffer.as_mut_array::<BLOCK>() else {
            return Err(Layer::Database.fault(Refusal::NotABlock, 0));
        };
        let mut last = *buffer;
        let (first, number) = at;
        for p in first..PAGES {
            if self.look_up(p)?.page != p {
                continue;
            }
            let page = self.read_page(p)?;
            last = page.bytes;
            let from = if p == first { number as usize } else { 0 };
            if let Some(i) = first_home(&self.directory, &page, p, from) {
                *buffer = last;
                return Ok(shown(&page.pairs, p, i));
            }
        }
        *buffer = last;
        Ok(Stepped::End)
    }
}

fn no_code(home: u32) -> Fault {
    Layer::Database.fault(Refusal::NoCode, DIRECTORY_BLOCKS.saturating_add(home))
}

// What a step shows of pair i of a page.
fn shown(pairs: &Pairs, p: u32, i: usize) -> Stepped {
    let pair = pairs.as_slice().get(i).copied().unwrap_or_default();
    let after = u32::try_from(i).unwrap_or(0).saturating_add(1);
    Stepped::Pair((pair.key_place(), pair.value_place(), (p, after)))
}

// The first pair from a number on whose key's lookup ends at the page.
fn first_home(directory: &[u8; DIRECTORY], page: &Page, p: u32, from: usize) -> Option<usize> {
    for (i, pair) in page.pairs.as_slice().iter().enumerate() {
        if i >= from && home_of(directory, hash_of(pair.key_of(&page.bytes))) == p {
            return Some(i);
        }
    }
    None
}
