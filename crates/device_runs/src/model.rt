// A plain model of a stack of page devices: what stands on a device, as a list of floors, lowest first.
use crate::counts::{Counts, count};
use crate::failure::Failure;
use crate::store::{BLOCK, Numbered, Store, shown, shown_mut};
use faults::{Fault, Layer, Refusal};
use std::alloc::{AllocError, Global};
use std::mem;

// How many frames a cache has.
const FRAMES: usize = 8;

// What a call answers.
pub type Answer = Result<(), Fault>;

// What stands on a device: a cache with its frames, oldest first, a quota with its remainder, or a window.
#[derive(Drop)]
pub enum Floor {
    Cache(Vec<Numbered>),
    Quota(u32),
    Window { base: u32, length: u32 },
}

impl Floor {
    fn layer(&self) -> Layer {
        match self {
            Floor::Cache(_) => Layer::Cache,
            Floor::Quota(_) => Layer::Quota,
            Floor::Window { .. } => Layer::Window,
        }
    }

    // What a number on the floor is below it.
    fn below(&self, n: u32) -> u32 {
        match self {
            Floor::Window { base, .. } => n.saturating_add(*base),
            _ => n,
        }
    }

    // Whether a number on the floor has a block below it.
    fn reaches(&self, n: u32) -> bool {
        match self {
            Floor::Window { length, .. } => n < *length,
            _ => true,
        }
    }

    // Takes a block, and gives the one to carry on down, if there is one.
    fn take(&mut self, block: Numbered) -> Result<Option<Numbered>, AllocError> {
        match self {
            Floor::Cache(frames) => keep(frames, block),
            Floor::Quota(_) => Ok(Some(block)),
            Floor::Window { base, .. } => {
                let Numbered { number, bytes } = block;
                let number = number.saturating_add(*base);
                Ok(Some(Numbered { number, bytes }))
            }
        }
    }

    // Takes the frames out.
    fn emptied(&mut self, heap: Global) -> Vec<Numbered> {
        match self {
            Floor::Cache(frames) => mem::replace(frames, Vec::new(heap)),
            _ => Vec::new(heap),
        }
    }
}

// A stack.
#[derive(Drop)]
pub struct Model {
    store: Store,
    floors: Vec<Floor>,
}

impl Model {
    fn new(heap: Global, store: Store) -> Model {
        Model {
            store,
            floors: Vec::new(heap),
        }
    }

    // Bytes as consecutive blocks.
    pub fn flat(heap: Global, bytes: &[u8]) -> Result<Model, AllocError> {
        Ok(Model::new(heap, Store::flat(heap, bytes)?))
    }

    // Bytes as marked records, some of them free.
    pub fn slotted(heap: Global, bytes: &[u8]) -> Result<Model, AllocError> {
        Ok(Model::new(heap, Store::slotted(heap, bytes)?))
    }

    // The bytes that the bottom has to have.
    pub fn image(&self) -> Result<Vec<u8>, AllocError> {
        self.store.image()
    }

    // How many calls came down to the bottom.
    pub fn counts(&self) -> Counts {
        self.store.counts
    }

    // Takes every floor off, and counts anew. What a cache had in its frames is lost.
    pub fn clear(&mut self) {
        self.floors.clear();
        self.store.counts = Counts::default();
    }

    // Puts a floor on top.
    pub fn add(&mut self, floor: Floor) -> Result<(), AllocError> {
        self.floors.push(floor)?;
        Ok(())
    }

    // A refusal by what stands on top.
    fn fault(&self, refusal: Refusal, block: u32) -> Fault {
        let layer = match self.floors.last() {
            None => Layer::Bottom,
            Some(floor) => floor.layer(),
        };
        layer.fault(refusal, block)
    }

    // The limit of the whole stack.
    pub fn limit(&self) -> u32 {
        self.floors
            .iter()
            .fold(self.store.limit, |limit, floor| match floor {
                Floor::Window { base, length } => limit.saturating_sub(*base).min(*length),
                _ => limit,
            })
    }

    // How many more numbers may be claimed.
    pub fn left(&self) -> u32 {
        self.floors
            .iter()
            .fold(self.store.left(), |left, floor| match floor {
                Floor::Quota(remainder) => left.min(*remainder),
                _ => left,
            })
    }

    // Whether the whole stack holds a number.
    pub fn holds(&self, n: u32) -> bool {
        holds(self.floors.as_slice(), &self.store, n)
    }

    // What a call on a number asks first.
    fn check_number(&self, n: u32) -> Answer {
        if n >= self.limit() {
            return Err(self.fault(Refusal::PastLimit, n));
        }
        Ok(())
    }

    // What a call with a buffer asks first.
    fn check_buffer(&self, n: u32, len: usize) -> Answer {
        if len != BLOCK {
            return Err(self.fault(Refusal::NotABlock, 0));
        }
        self.check_number(n)
    }

    // Claims a number of the whole stack.
    pub fn claim(&mut self, n: u32) -> Result<(), Failure<Fault>> {
        self.check_number(n)?;
        let held = self.holds(n);
        let bottom = self.claimed(n, held)?;
        count(&mut self.store.counts.claims);
        if !held {
            self.store.claim(bottom)?;
            self.note_claim(n);
        }
        Ok(())
    }

    // The number of the bottom that a claim takes, unless a quota refuses it.
    fn claimed(&self, n: u32, held: bool) -> Result<u32, Fault> {
        self.floors
            .iter()
            .rev()
            .try_fold(n, |m, floor| match floor {
                Floor::Quota(0) if !held => Err(Layer::Quota.fault(Refusal::NoClaim, m)),
                _ => Ok(floor.below(m)),
            })
    }

    // What every floor does once a new number was claimed.
    fn note_claim(&mut self, n: u32) {
        let mut m = n;
        for floor in self.floors.iter_mut().rev() {
            match floor {
                Floor::Cache(frames) => frames.retain(|frame| frame.number != m),
                Floor::Quota(remainder) => *remainder = remainder.saturating_sub(1),
                Floor::Window { base, .. } => m = m.saturating_add(*base),
            }
        }
    }

    // Reads a block of the whole stack into a buffer, which a refusal leaves alone.
    pub fn read(&mut self, n: u32, into: &mut Vec<u8>) -> Result<(), Failure<Fault>> {
        self.check_buffer(n, into.len())?;
        *into = block_of(self.floors.as_slice(), &mut self.store, n)?;
        Ok(())
    }

    // Writes a block of the whole stack.
    pub fn write(&mut self, n: u32, from: &[u8]) -> Result<(), Failure<Fault>> {
        self.check_buffer(n, from.len())?;
        if !self.holds(n) {
            return Err(self.fault(Refusal::NotHeld, n).into());
        }
        let bytes = from.to_vec(self.store.heap)?;
        let block = Numbered { number: n, bytes };
        put(self.floors.as_mut_slice(), &mut self.store, block)?;
        Ok(())
    }

    // Flushes the whole stack.
    pub fn flush(&mut self) -> Result<(), Failure<Fault>> {
        flush(self.floors.as_mut_slice(), &mut self.store)?;
        Ok(())
    }
}

// From here to `flush` the floors and the store stay two parameters. As one struct of two references, made anew for the floors
// below, the recursion is not proved: the check follows no slice that is split out of a field and put into such a struct again.

// Whether a number is held on top of these floors.
fn holds(floors: &[Floor], store: &Store, n: u32) -> bool {
    floors
        .iter()
        .rev()
        .try_fold(n, |m, floor| floor.reaches(m).then_some(floor.below(m)))
        .is_some_and(|m| store.holds(m))
}

// The block of a number on top of these floors: that of the uppermost frame that shows it, or else that of the bottom.
fn block_of(floors: &[Floor], store: &mut Store, n: u32) -> Result<Vec<u8>, AllocError> {
    let [below @ .., top] = floors else {
        return store.read(n);
    };
    if let Floor::Cache(frames) = top {
        if let Some(bytes) = shown(frames.as_slice(), n) {
            if holds(below, store, n) {
                return bytes.to_vec(store.heap);
            }
        }
    }
    block_of(below, store, top.below(n))
}

// Carries a block down: to the first cache with room for it, or to the bottom. A full cache keeps it and gives its oldest
// block to carry on.
fn put(floors: &mut [Floor], store: &mut Store, block: Numbered) -> Result<(), AllocError> {
    let Some((top, below)) = floors.split_last_mut() else {
        store.write(block);
        return Ok(());
    };
    let Some(carried) = top.take(block)? else {
        return Ok(());
    };
    if !holds(below, store, carried.number) {
        return Ok(());
    }
    put(below, store, carried)
}

// Flushes floors: each cache in turn, from the top, gives its frames to what is below it, oldest first.
fn flush(floors: &mut [Floor], store: &mut Store) -> Result<(), AllocError> {
    let Some((top, below)) = floors.split_last_mut() else {
        count(&mut store.counts.flushes);
        return Ok(());
    };
    for frame in top.emptied(store.heap) {
        if holds(below, store, frame.number) {
            put(below, store, frame)?;
        }
    }
    flush(below, store)
}

// Gives a block to a cache, which may give its oldest one back.
fn keep(frames: &mut Vec<Numbered>, block: Numbered) -> Result<Option<Numbered>, AllocError> {
    if let Some(frame) = shown_mut(frames.as_mut_slice(), block.number) {
        *frame = block;
        return Ok(None);
    }
    let oldest = if frames.len() < FRAMES {
        None
    } else {
        Some(frames.remove(0))
    };
    frames.push(block)?;
    Ok(oldest)
}
