// A device that notes which calls are made on it.
use crate::model::trail::Trail;
use devices::Device;
use faults::Fault;

#[derive(Drop)]
pub struct Watched<D> {
    below: D,
    trail: Trail,
}

impl<D: Device> Watched<D> {
    pub fn new(below: D) -> Watched<D> {
        Watched {
            below,
            trail: Trail::default(),
        }
    }

    // What was called.
    pub fn trail(&self) -> Trail {
        self.trail
    }
}

impl<D: Device> Device for Watched<D> {
    ghost meaning = { λ w. D.Device.meaning w.below };

    ghost steps = { λ w c r t. D.Device.steps w.below c r t.below };

    fn limit(&self) -> u32 {
        self.below.limit()
    }

    fn left(&self) -> u32 {
        self.below.left()
    }

    fn holds(&self, n: u32) -> bool {
        self.below.holds(n)
    }

    fn claim(&mut self, n: u32) -> Result<(), Fault> {
        self.trail.claim(n);
        self.below.claim(n)
    }

    fn read(&mut self, n: u32, into: &mut [u8]) -> Result<(), Fault> {
        self.trail.read(n);
        self.below.read(n, into)
    }

    fn write(&mut self, n: u32, from: &[u8]) -> Result<(), Fault> {
        self.trail.write(n, from);
        self.below.write(n, from)
    }

    fn flush(&mut self) -> Result<(), Fault> {
        self.trail.flush();
        self.below.flush()
    }
}
