// A write-back cache of eight frames over any page device.
#![tactic(auto)]

pub mod frames;

ghost use Rattle.std.specs.Prelude.{◌≡◌, ◌<◌, [], length};
ghost use Rattle.cache.specs.After.{Drained, Evicted, MadeRoom};
ghost use Rattle.cache.specs.Calls.{visible};
ghost use Rattle.cache.specs.InUse.{in_use};
ghost use Rattle.cache.specs.Shown.{Shows, cached, renamed};
ghost use Rattle.cache.specs.Told.{Told};
ghost use Rattle.devices.specs.Trace.{Did};

use devices::{Device, ZeroUnheld, check_buffer, check_number};
use faults::{Fault, Layer, Refusal};
use frames::{FRAMES, Frame, Queue};

// What was written stays in the frames, and goes below when a frame is needed or at a flush.
#[derive(Drop)]
pub struct Cache<D> {
    below: D,
    queue: Queue,
}

impl<D: Device> Cache<D> {
    // A cache with all eight frames free shows the device below as it is, but for the layer that it names.
    pub fn new(below: D) -> Cache<D>
        ensures meaning { cached (in_use result.queue) (D.Device.meaning result.below) ≡ renamed (D.Device.meaning below) }
        ensures below { result.below ≡ below }
        ensures frames { in_use result.queue ≡ [] }
    {
        Cache {
            below,
            queue: Queue::new(),
        }
    }

    // The device below, again. What is still in the frames is lost: a flush brings it down.
    pub fn into_below(self) -> D
        ensures { result ≡ self.below }
    {
        self.below
    }

    // Where the frame is that shows n. A number that is not held is shown by the device below.
    fn shown_by(&self, n: u32) -> Option<usize>
        ensures place { result ≡ visible (in_use self.now.queue) (D.Device.meaning self.now.below) n }
        ensures shows { Shows (in_use self.now.queue) (D.Device.meaning self.now.below) n result }
    {
        if self.below.holds(n) {
            return self.queue.find(n);
        }
        None
    }

    // Sees to it that a frame is free: the oldest of eight leaves.
    fn make_room(&mut self) -> Result<(), Fault>
        ensures { MadeRoom (Did D.Device.steps D.Device.meaning) D.Device.meaning (in_use self.old.queue) self.old.below result (in_use self.new.queue) self.new.below }
    {
        if self.queue.len() < FRAMES {
            return Ok(());
        }
        self.evict()
    }

    // The oldest frame leaves: it is written below, or dropped where its number is not held there.
    fn evict(&mut self) -> Result<(), Fault>
        requires { 0 < length (in_use self.old.queue) }
        ensures { Evicted (Did D.Device.steps D.Device.meaning) D.Device.meaning (in_use self.old.queue) self.old.below result (in_use self.new.queue) self.new.below }
    {
        let oldest = self.queue.frame(0);
        if self.below.holds(oldest.number) {
            self.below.write(oldest.number, &oldest.block)?;
        }
        self.queue.pop();
        Ok(())
    }

    // Every frame leaves, oldest first, and then the device below is flushed.
    fn drain(&mut self) -> Result<(), Fault>
        ensures { Drained (Did D.Device.steps D.Device.meaning) D.Device.meaning (in_use self.old.queue) self.old.below result (in_use self.new.queue) self.new.below }
    {
        while !self.queue.is_empty() {
            self.evict()?;
        }
        self.below.flush()
    }
}

impl<D: Device> Device for Cache<D> {
    ghost meaning = { λ c. cached (in_use c.queue) (D.Device.meaning c.below) };

    ghost steps = { λ c call r t. Told (Did D.Device.steps D.Device.meaning) D.Device.meaning (in_use c.queue) c.below call r (in_use t.queue) t.below };

    fn limit(&self) -> u32 {
        self.below.limit()
    }

    fn left(&self) -> u32 {
        self.below.left()
    }

    fn holds(&self, n: u32) -> bool {
        self.below.holds(n)
    }

    // A claim always goes below. A number that was not held has no frame afterwards, so that it shows the block below.
    fn claim(&mut self, n: u32) -> Result<(), Fault> {
        check_number(Layer::Cache, self.below.limit(), n)?;
        if self.below.holds(n) {
            return self.below.claim(n);
        }
        self.below.claim(n)?;
        self.queue.forget(n);
        Ok(())
    }

    fn read(&mut self, n: u32, into: &mut [u8]) -> Result<(), Fault> {
        check_buffer(Layer::Cache, self.below.limit(), n, into.len())?;
        if let Some(age) = self.shown_by(n) {
            into.copy_from_slice(&self.queue.frame(age).block);
            return Ok(());
        }
        self.below.read(n, into)
    }

    fn write(&mut self, n: u32, from: &[u8]) -> Result<(), Fault> {
        check_buffer(Layer::Cache, self.below.limit(), n, from.len())?;
        if !self.below.holds(n) {
            return Err(Layer::Cache.fault(Refusal::NotHeld, n));
        }
        let frame = Frame::new(n, from);
        if let Some(age) = self.queue.find(n) {
            self.queue.overwrite(age, frame);
            return Ok(());
        }
        self.make_room()?;
        self.queue.push(frame);
        Ok(())
    }

    fn flush(&mut self) -> Result<(), Fault> {
        self.drain()
    }
}

impl<D: ZeroUnheld> ZeroUnheld for Cache<D> {
    fn unheld_are_zeros(&self) {
        self.below.unheld_are_zeros()
    }
}
