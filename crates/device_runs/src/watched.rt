// A device that counts the calls made on it.
use crate::counts::{Counts, count};
use devices::Device;
use faults::Fault;

#[derive(Drop)]
pub struct Watched<D> {
    below: D,
    counts: Counts,
}

impl<D: Device> Watched<D> {
    pub fn new(below: D) -> Watched<D> {
        Watched {
            below,
            counts: Counts::default(),
        }
    }

    // How many calls were made.
    pub fn counts(&self) -> Counts {
        self.counts
    }

    // The device, again.
    pub fn into_below(self) -> D {
        let Watched { below, counts: _ } = self;
        below
    }
}

impl<D: Device> Device for Watched<D> {
    ghost meaning = { λ w. D.Device.meaning w.below };

    ghost steps = { λ w c r t. D.Device.steps w.below c r t.below };

    fn limit(&self) -> u32 {
        self.below.limit()
    }

    fn left(&self) -> u32 {
        self.below.left()
    }

    fn holds(&self, n: u32) -> bool {
        self.below.holds(n)
    }

    fn claim(&mut self, n: u32) -> Result<(), Fault> {
        count(&mut self.counts.claims);
        self.below.claim(n)
    }

    fn read(&mut self, n: u32, into: &mut [u8]) -> Result<(), Fault> {
        count(&mut self.counts.reads);
        self.below.read(n, into)
    }

    fn write(&mut self, n: u32, from: &[u8]) -> Result<(), Fault> {
        count(&mut self.counts.writes);
        self.below.write(n, from)
    }

    fn flush(&mut self) -> Result<(), Fault> {
        count(&mut self.counts.flushes);
        self.below.flush()
    }
}
