// The model of the device at the bottom: a list of numbered blocks.
use crate::counts::{Counts, count};
use crate::failure::{Failure, with_memory};
use faults::{Fault, Layer, Refusal};
use std::alloc::{AllocError, Global};
use std::collections::VecDeque;
use thiserror::Error;

// How many bytes a block has, and a record of a slotted image, and how many blocks a device has at most. They stand here
// anew, so that a wrong one among the devices' own shows.
pub const BLOCK: usize = 1024;

pub const RECORD: usize = 1030;

pub const MOST: u32 = 65_544;

// A block and its number.
#[derive(Drop)]
pub struct Numbered {
    pub number: u32,
    pub bytes: Vec<u8>,
}

// What an image is made of: blocks alone, or marked records.
#[derive(Clone, Copy)]
enum Format {
    Blocks,
    Records,
}

// Bytes that are no list of records.
#[derive(Clone, Copy, Debug, Error)]
#[error("no list of records")]
struct Malformed;

// The image is the blocks, with or without marks, then the free records, then the rest.
#[derive(Drop)]
pub struct Store {
    pub heap: Global,
    pub limit: u32,
    pub counts: Counts,
    format: Format,
    blocks: Vec<Numbered>,
    free: VecDeque<Vec<u8>>,
    rest: Vec<u8>,
}

impl Store {
    // A device with no block and no byte.
    fn new(heap: Global, format: Format) -> Store {
        Store {
            heap,
            limit: 0,
            counts: Counts::default(),
            format,
            blocks: Vec::new(heap),
            free: VecDeque::new(heap),
            rest: Vec::new(heap),
        }
    }

    // Bytes as consecutive blocks. A loop: the whole pieces are blocks, up to the most, and all others stay as they are, in order.
    pub fn flat(heap: Global, bytes: &[u8]) -> Result<Store, AllocError> {
        let mut store = Store::new(heap, Format::Blocks);
        for piece in bytes.chunks(BLOCK) {
            let number = store.limit;
            if piece.len() == BLOCK && number < MOST {
                let bytes = piece.to_vec(heap)?;
                store.blocks.push(Numbered { number, bytes })?;
                store.limit = number + 1;
            } else {
                store.rest.extend_from_slice(piece)?;
            }
        }
        Ok(store)
    }

    // Bytes as marked records, some of them free. Bytes that are no list of records stay as they are.
    pub fn slotted(heap: Global, bytes: &[u8]) -> Result<Store, AllocError> {
        match with_memory(Store::records(heap, bytes))? {
            Ok(store) => Ok(store),
            Err(Malformed) => {
                let mut dead = Store::new(heap, Format::Records);
                dead.rest.extend_from_slice(bytes)?;
                Ok(dead)
            }
        }
    }

    fn records(heap: Global, bytes: &[u8]) -> Result<Store, Failure<Malformed>> {
        if bytes.len() % RECORD != 0 || bytes.len() / RECORD > MOST as usize {
            return Err(Failure::Other(Malformed));
        }
        let mut store = Store::new(heap, Format::Records);
        store.limit = MOST;
        for record in bytes.chunks(RECORD) {
            store.take(record)?;
        }
        Ok(store)
    }

    // Takes the next record in, if it is well-formed after those before it.
    fn take(&mut self, record: &[u8]) -> Result<(), Failure<Malformed>> {
        match record {
            [b'S', b'D', a, b, c, d, block @ ..] => {
                let number = u32::from_le_bytes([*a, *b, *c, *d]);
                if number >= MOST || !self.free.is_empty() || self.holds(number) {
                    return Err(Failure::Other(Malformed));
                }
                let bytes = block.to_vec(self.heap)?;
                self.blocks.push(Numbered { number, bytes })?;
            }
            [0, 0, ..] => {
                let free = record.to_vec(self.heap)?;
                self.free.push_back(free)?;
            }
            _ => return Err(Failure::Other(Malformed)),
        }
        Ok(())
    }

    // The bytes that the device has to have.
    pub fn image(&self) -> Result<Vec<u8>, AllocError> {
        let mut image = Vec::new(self.heap);
        for block in self.blocks.iter() {
            if let Format::Records = self.format {
                image.extend_from_slice(b"SD")?;
                image.extend_from_slice(&block.number.to_le_bytes())?;
            }
            image.extend_from_slice(block.bytes.as_slice())?;
        }
        for record in self.free.iter() {
            image.extend_from_slice(record.as_slice())?;
        }
        image.extend_from_slice(self.rest.as_slice())?;
        Ok(image)
    }

    // How many more numbers may be claimed.
    pub fn left(&self) -> u32 {
        u32::try_from(self.free.len()).unwrap_or(u32::MAX)
    }

    pub fn holds(&self, n: u32) -> bool {
        self.blocks.iter().any(|block| block.number == n)
    }

    // Makes the first free record a block of zeros.
    pub fn claim(&mut self, number: u32) -> Result<(), Failure<Fault>> {
        let Some(_) = self.free.pop_front() else {
            return Err(Layer::Bottom.fault(Refusal::NoClaim, number).into());
        };
        let bytes = vec![in self.heap; 0u8; BLOCK]?;
        self.blocks.push(Numbered { number, bytes })?;
        Ok(())
    }

    pub fn read(&mut self, n: u32) -> Result<Vec<u8>, AllocError> {
        count(&mut self.counts.reads);
        match shown(self.blocks.as_slice(), n) {
            Some(bytes) => bytes.to_vec(self.heap),
            None => vec![in self.heap; 0u8; BLOCK],
        }
    }

    pub fn write(&mut self, block: Numbered) {
        count(&mut self.counts.writes);
        if let Some(old) = shown_mut(self.blocks.as_mut_slice(), block.number) {
            *old = block;
        }
    }
}

// The last block with a number.
pub fn shown(blocks: &[Numbered], n: u32) -> Option<&[u8]> {
    let block = blocks.iter().rfind(|block| block.number == n)?;
    Some(block.bytes.as_slice())
}

// The same, to be written anew.
pub fn shown_mut(blocks: &mut [Numbered], n: u32) -> Option<&mut Numbered> {
    blocks.iter_mut().rfind(|block| block.number == n)
}
