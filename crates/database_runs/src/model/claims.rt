// The model's claims and writes: which numbers are held, and how many more may be claimed.
use crate::model::Model;
use crate::model::blocks::{BLOCK, Numbered};
use faults::{Fault, Layer, Refusal};
use std::alloc::{AllocError, Global};
use thiserror::Error;

// Why the model could not go on: no memory, or a refusal, which is the answer.
#[derive(Debug, Drop, Error)]
pub enum Failure {
    #[error("no memory")]
    Memory(#[from(alloc)] AllocError),
    #[error(transparent)]
    Refused(#[from] Fault),
}

// What was answered, given that there was memory.
pub fn with_memory<T>(answer: Result<T, Failure>) -> Result<Result<T, Fault>, AllocError> {
    match answer {
        Ok(value) => Ok(Ok(value)),
        Err(Failure::Memory(error)) => Err(error),
        Err(Failure::Refused(fault)) => Ok(Err(fault)),
    }
}

// A quota in the stack: which number of the bottom its number 0 is, and how many claims it lets pass.
#[derive(Clone, Copy)]
struct Ration {
    base: u32,
    remainder: u32,
}

// Numbers are those of the bottom.
#[derive(Drop)]
pub struct Claims {
    held: Vec<u32>,
    left: u32,
    rations: Vec<Ration>,
    base: u32,
    outside: Vec<Numbered>,
}

impl Claims {
    // The bare bottom, which holds these numbers.
    pub fn new(heap: Global, held: Vec<u32>, left: u32) -> Claims {
        Claims {
            held,
            left,
            rations: Vec::new(heap),
            base: 0,
            outside: Vec::new(heap),
        }
    }

    // The numbers that the bottom holds.
    pub fn held(&self) -> &[u32] {
        self.held.as_slice()
    }

    // How many claims the bottom has left.
    pub fn left(&self) -> u32 {
        self.left
    }

    // How many the whole stack has left.
    pub fn left_on_top(&self) -> u32 {
        self.rations
            .iter()
            .fold(self.left, |left: u32, ration| left.min(ration.remainder))
    }

    // Puts a quota on top.
    pub fn add_quota(&mut self, remainder: u32) -> Result<(), AllocError> {
        let base = self.base;
        self.rations.push(Ration { base, remainder })?;
        Ok(())
    }

    // Puts a window on top. Stale blocks that it cuts off stay as they are in the image.
    pub fn add_window(
        &mut self,
        model: &mut Model,
        base: u32,
        length: u32,
    ) -> Result<(), AllocError> {
        let limit = length.min(model.limit.saturating_sub(base));
        for block in model.blocks.iter() {
            if block.number < base || block.number.saturating_sub(base) >= limit {
                self.outside.push(Numbered {
                    number: block.number.saturating_add(self.base),
                    bytes: block.first_bytes(),
                    stale: false,
                })?;
            }
        }
        model.add_window(base, length);
        self.base = self.base.saturating_add(base);
        Ok(())
    }

    // Takes the stack down. Gives the blocks of the bottom.
    pub fn take_down(&mut self, model: &Model) -> Result<Vec<Numbered>, AllocError> {
        let mut blocks = self.outside.clone()?;
        for block in model.blocks.iter() {
            let number = block.number.saturating_add(self.base);
            blocks.push(Numbered { number, ..*block })?;
        }
        self.rations.clear();
        self.outside.clear();
        self.base = 0;
        Ok(blocks)
    }

    // Which number of the bottom a number of the whole stack is.
    fn below(&self, n: u32) -> u32 {
        n.saturating_add(self.base)
    }

    // Claims a number of the whole stack: the uppermost that has no claim left refuses.
    pub fn claim(&mut self, model: &mut Model, n: u32) -> Result<(), Failure> {
        model.trail.claim(n);
        if n >= model.limit {
            return Err(model.refused(Refusal::PastLimit, n).into());
        }
        let bottom = self.below(n);
        if self.held.contains(&bottom) {
            return Ok(());
        }
        for ration in self.rations.iter().rev() {
            if ration.remainder == 0 {
                let told = bottom.saturating_sub(ration.base);
                return Err(Layer::Quota.fault(Refusal::NoClaim, told).into());
            }
        }
        if self.left == 0 {
            return Err(Layer::Bottom.fault(Refusal::NoClaim, bottom).into());
        }
        self.held.push(bottom)?;
        self.left = self.left.saturating_sub(1);
        for ration in self.rations.iter_mut() {
            ration.remainder = ration.remainder.saturating_sub(1);
        }
        Ok(())
    }

    // Writes a block of the whole stack.
    pub fn write(&mut self, model: &mut Model, n: u32, bytes: &[u8; BLOCK]) -> Result<(), Failure> {
        model.trail.write(n, bytes);
        if n >= model.limit {
            return Err(model.refused(Refusal::PastLimit, n).into());
        }
        if !self.held.contains(&self.below(n)) {
            return Err(model.refused(Refusal::NotHeld, n).into());
        }
        model.put(n, bytes)?;
        Ok(())
    }
}
