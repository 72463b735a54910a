// Calls that read, on a database and on the model, and what they answer and leave, side by side.
use crate::bench::{Bench, Stop};
use crate::model::blocks::BLOCK;
use crate::model::decoding::Plain;
use crate::model::packing::{Entry, at_place};
use crate::model::tree::DIRECTORY_BLOCKS;
use crate::tally::count;
use crate::watched::Watched;
use database::{Database, Position, Stepped};
use devices::Device;
use faults::{Fault, Refusal};
use pages::Place;
use std::alloc::{AllocError, Global};
use std::fmt::Debug;

// What a step answered, and its buffer.
#[derive(Drop)]
pub struct Stride {
    pub answer: Result<Stepped, Fault>,
    page: Vec<u8>,
}

impl Bench {
    // A key that was put somewhere, or one that differs in a byte, or any.
    pub fn key(&mut self) -> Result<Vec<u8>, AllocError> {
        let count = u32::try_from(self.keys.len()).unwrap_or(0);
        let place = self.random.below(count) as usize;
        let mut key = match self.keys.get(place) {
            Some(key) if !self.random.one_in(12) => key.clone()?,
            _ => {
                let len = self.random.below(4) as usize;
                self.random.bytes(len)?
            }
        };
        if self.random.one_in(8) {
            if let [first, ..] = key.as_mut_slice() {
                *first ^= 1;
            }
        }
        Ok(key)
    }

    // A position: mostly among the pages that there are, or near the end.
    pub fn position(&mut self) -> Position {
        let page = match self.random.below(6) {
            0 => 32_700_u32.saturating_add(self.random.below(80)),
            1 => self.random.below(4),
            2 => self.random.below(u32::MAX),
            _ => {
                let count = u32::try_from(self.model.blocks.len()).unwrap_or(0);
                let place = self.random.below(count) as usize;
                let number = self.model.blocks.get(place).map_or(0, |block| block.number);
                number.saturating_sub(DIRECTORY_BLOCKS)
            }
        };
        let number = match self.random.below(6) {
            0 => 0,
            1 => u32::MAX,
            _ => self.random.below(20),
        };
        (page, number)
    }

    // Two buffers of the same bytes: a block's length, but for one in twelve.
    fn buffers(&mut self) -> Result<(Vec<u8>, Vec<u8>), AllocError> {
        let len = if self.random.one_in(12) {
            match self.random.below(4) {
                0 => 0,
                1 => BLOCK - 1,
                2 => BLOCK + 1,
                _ => 2 * BLOCK,
            }
        } else {
            BLOCK
        };
        let byte = self.random.byte();
        Ok((
            vec![in self.heap; byte; len]?,
            vec![in self.heap; byte; len]?,
        ))
    }

    pub fn fetch<D: Device + Drop>(&mut self, device: &mut Watched<D>) -> Result<(), Stop> {
        let key = self.key()?;
        let (mut got_bytes, mut wanted_bytes) = self.buffers()?;
        let mut database = Database::new(&mut *device);
        let got = database.fetch(key.as_slice(), got_bytes.as_mut_slice());
        let wanted = self
            .model
            .fetch(key.as_slice(), wanted_bytes.as_mut_slice());
        count(&mut self.reads.fetches);
        self.reads.count(wanted.map(|place| place.is_some()));
        self.same("the answer of a fetch", &got, &wanted)?;
        self.same_effects(device, got_bytes.as_slice(), wanted_bytes.as_slice())
    }

    pub fn get<R: Plain + PartialEq + Debug + Copy, D: Device + Drop>(
        &mut self,
        device: &mut Watched<D>,
    ) -> Result<(), Stop> {
        let key = self.key()?;
        let (mut got_bytes, mut wanted_bytes) = self.buffers()?;
        let mut database = Database::new(&mut *device);
        let got = database.get::<R>(key.as_slice(), got_bytes.as_mut_slice());
        let wanted = self
            .model
            .get::<R>(key.as_slice(), wanted_bytes.as_mut_slice());
        count(&mut self.reads.gets);
        self.reads.count(wanted.map(|record| record.is_some()));
        self.same("the answer of a get", &got, &wanted)?;
        self.same_effects(device, got_bytes.as_slice(), wanted_bytes.as_slice())
    }

    pub fn step<D: Device + Drop>(
        &mut self,
        device: &mut Watched<D>,
        at: Position,
    ) -> Result<Stride, Stop> {
        let (mut got_bytes, mut wanted_bytes) = self.buffers()?;
        let mut database = Database::new(&mut *device);
        let got = database.step(at, got_bytes.as_mut_slice());
        let wanted = self.model.step(at, wanted_bytes.as_mut_slice());
        count(&mut self.reads.steps);
        self.reads
            .count(wanted.map(|answer| answer != Stepped::End));
        self.same("the answer of a step", &got, &wanted)?;
        self.same_effects(device, got_bytes.as_slice(), wanted_bytes.as_slice())?;
        Ok(Stride {
            answer: got,
            page: got_bytes,
        })
    }

    // Steps from the start to the end, and past refused pages. Gives the pairs that were shown.
    pub fn walk<D: Device + Drop>(&mut self, device: &mut Watched<D>) -> Result<Vec<Entry>, Stop> {
        let mut shown = Vec::new(self.heap);
        let mut at = (0, 0);
        for _ in 0..MOST_STEPS {
            let stride = self.step(device, at)?;
            match stride.answer {
                Ok(Stepped::Pair((key, value, next))) => {
                    shown.push(entry(self.heap, stride.page.as_slice(), key, value)?)?;
                    at = next;
                }
                Ok(Stepped::End) => break,
                // Another buffer will do.
                Err(fault) if fault.refusal == Refusal::NotABlock => {}
                Err(fault) => match page_after(fault, at) {
                    Some(page) => at = (page, 0),
                    None => break,
                },
            }
        }
        Ok(shown)
    }

    // Compares what a call left in the buffer, and what it asked of the device.
    fn same_effects<D: Device + Drop>(
        &self,
        device: &Watched<D>,
        got: &[u8],
        wanted: &[u8],
    ) -> Result<(), Stop> {
        self.same_trail(device)?;
        self.same_bytes("the buffer", got, wanted)
    }
}

// No walk of these databases has more steps, of which a buffer that is no block refuses some.
const MOST_STEPS: u32 = 10_000;

// A pair that a step shows in its page.
fn entry(heap: Global, page: &[u8], key: Place, value: Place) -> Result<Entry, AllocError> {
    Ok(Entry {
        key: at_place(page, key).to_vec(heap)?,
        value: at_place(page, value).to_vec(heap)?,
    })
}

// The page after the one that a refusal names, if it is at or after a position.
fn page_after(fault: Fault, at: Position) -> Option<u32> {
    let page = fault.block.checked_sub(DIRECTORY_BLOCKS)?;
    (page >= at.0).then_some(page.saturating_add(1))
}
