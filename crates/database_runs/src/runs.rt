// Random lists of calls on a database and on the model, and what they leave, side by side.
use crate::bench::{Bench, Stop, differs};
use crate::model::Model;
use crate::model::blocks::BLOCK;
use crate::model::packing::Entry;
use crate::watched::Watched;
use calls::Mode;
use devices::Device;
use faults::Layer;
use records::{Member, Symbol};
use std::alloc::AllocError;

impl Bench {
    pub fn add_cache(&mut self) {
        self.model.layer = Layer::Cache;
    }

    pub fn add_quota(&mut self, remainder: u32) -> Result<(), AllocError> {
        self.model.layer = Layer::Quota;
        self.claims.add_quota(remainder)
    }

    pub fn add_window(&mut self, base: u32, length: u32) -> Result<(), AllocError> {
        self.claims.add_window(&mut self.model, base, length)
    }

    // Writes stale blocks to the device, which then shows them: each, or one in so many.
    pub fn write_stale<D: Device>(&mut self, device: &mut D, one_in: u32) -> Result<(), Stop> {
        for block in self.model.blocks.iter_mut() {
            if block.stale && self.random.one_in(one_in) {
                if let Err(fault) = device.write(block.number, &block.bytes) {
                    return Err(differs(self.heap, "a write", &fault, &"accepted")?);
                }
                block.stale = false;
            }
        }
        Ok(())
    }

    // Makes a random list of calls, walks, and flushes.
    pub fn run<D: Device + Drop>(&mut self, device: D) -> Result<(), Stop> {
        self.model.open();
        let mut watched = Watched::new(device);
        if self.list.is_none() {
            self.list = Some(self.walk(&mut watched)?);
        }
        for _ in 0..self.random.below(600).saturating_add(1) {
            self.call(&mut watched)?;
            let left = self.claims.left_on_top();
            self.same("the number of claims left", &watched.left(), &left)?;
        }
        let shown = self.walk(&mut watched)?;
        self.same_pairs(shown.as_slice())?;
        self.flush(&mut watched)
    }

    // Makes a random call.
    fn call<D: Device + Drop>(&mut self, device: &mut Watched<D>) -> Result<(), Stop> {
        match self.random.below(82) {
            0..=27 => self.store(device, Mode::Replace),
            28..=39 => self.store(device, Mode::Insert),
            40..=43 => self.put::<Symbol, D>(device),
            44..=47 => self.put::<Member, D>(device),
            48..=55 => self.delete(device),
            56..=67 => self.fetch(device),
            68..=71 => self.get::<Symbol, D>(device),
            72..=75 => self.get::<Member, D>(device),
            // Not often: each at the end looks many pages up.
            76..=78 => {
                let at = self.position();
                let _ = self.step(device, at)?;
                Ok(())
            }
            _ => self.flush(device),
        }
    }

    // Compares the pairs that a walk showed with the list: the keys of the list differ.
    fn same_pairs(&self, shown: &[Entry]) -> Result<(), Stop> {
        let Some(list) = &self.list else {
            return Ok(());
        };
        self.same("the number of pairs held", &shown.len(), &list.len())?;
        for entry in list.iter() {
            let held = shown.iter().any(|other| same_entry(entry, other));
            self.same("that a pair is held", &held, &true)?;
        }
        Ok(())
    }

    // Compares the bottom, on which nothing stands any more: its numbers held, its claims left and its blocks. The model is then
    // that of the bare bottom.
    pub fn same_bottom<D: Device>(&mut self, bottom: &mut D) -> Result<(), Stop> {
        let limit = bottom.limit();
        let blocks = self.claims.take_down(&self.model)?;
        self.model = Model::new(limit, blocks);
        self.same("the claims left below", &bottom.left(), &self.claims.left())?;
        self.same(
            "the number of held ones",
            &count_held(bottom),
            &self.claims.held().len(),
        )?;
        self.same_blocks(bottom)
    }

    // Compares every block that the bottom holds.
    fn same_blocks<D: Device>(&self, bottom: &mut D) -> Result<(), Stop> {
        for n in self.claims.held() {
            self.same_block(bottom, *n)?;
        }
        Ok(())
    }

    // Compares a block of the bottom, which is held.
    fn same_block<D: Device>(&self, bottom: &mut D, n: u32) -> Result<(), Stop> {
        self.same("that a number is held", &bottom.holds(n), &true)?;
        let mut block = [0; BLOCK];
        if let Err(fault) = bottom.read(n, &mut block) {
            return Err(differs(self.heap, "a read", &fault, &"accepted")?);
        }
        self.same_bytes("a block of the bottom", &block, &self.model.block(n))
    }
}

// How many numbers a device holds.
fn count_held<D: Device>(device: &D) -> usize {
    (0..device.limit()).filter(|n| device.holds(*n)).count()
}

fn same_entry(one: &Entry, other: &Entry) -> bool {
    one.key.as_slice() == other.key.as_slice() && one.value.as_slice() == other.value.as_slice()
}
