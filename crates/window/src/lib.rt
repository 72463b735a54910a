// A part of any device as a device.
#![tactic(auto)]

ghost use Rattle.std.specs.Prelude.{◌≡◌};
ghost use Rattle.devices.specs.Trace.{Did};
ghost use Rattle.devices.specs.Meaning.{Sound};
ghost use Rattle.window.specs.Part.{Seen, reach, seen};

use devices::{Device, ZeroUnheld, check_buffer, check_number};
use faults::{Fault, Layer, Refusal};

// The blocks of a device from a base on, at most so many.
#[derive(Drop)]
pub struct Window<D> {
    below: D,
    base: u32,
    length: u32,
}

impl<D: Device> Window<D> {
    // A window of this length from a base on.
    pub fn new(below: D, base: u32, length: u32) -> Window<D>
        ensures { result ≡ record { below = below; base = base; length = length } }
    {
        Window {
            below,
            base,
            length,
        }
    }

    // How many blocks the window has.
    fn reach(&self) -> u32
        ensures value { result ≡ reach self.now.base self.now.length (D.Device.meaning self.now.below) }
        ensures sound { Sound (D.Device.meaning self.now.below) }
    {
        self.length
            .min(self.below.limit().saturating_sub(self.base))
    }

    // The device below, again.
    pub fn into_below(self) -> D
        ensures { result ≡ self.below }
    {
        self.below
    }
}

impl<D: Device> Device for Window<D> {
    ghost meaning = { λ w. seen w.base w.length (D.Device.meaning w.below) };

    ghost steps = { λ w c r t. Seen (Did D.Device.steps D.Device.meaning) (D.Device.meaning w.below) w.below w.base w.length c r t.below t.base t.length };

    fn limit(&self) -> u32 {
        self.reach()
    }

    fn left(&self) -> u32 {
        self.below.left()
    }

    fn holds(&self, n: u32) -> bool {
        n < self.reach() && self.below.holds(self.base + n)
    }

    fn claim(&mut self, n: u32) -> Result<(), Fault> {
        check_number(Layer::Window, self.reach(), n)?;
        self.below.claim(self.base + n)
    }

    fn read(&mut self, n: u32, into: &mut [u8]) -> Result<(), Fault> {
        check_buffer(Layer::Window, self.reach(), n, into.len())?;
        self.below.read(self.base + n, into)
    }

    fn write(&mut self, n: u32, from: &[u8]) -> Result<(), Fault> {
        check_buffer(Layer::Window, self.reach(), n, from.len())?;
        if !self.below.holds(self.base + n) {
            return Err(Layer::Window.fault(Refusal::NotHeld, n));
        }
        self.below.write(self.base + n, from)
    }

    fn flush(&mut self) -> Result<(), Fault> {
        self.below.flush()
    }
}

impl<D: ZeroUnheld> ZeroUnheld for Window<D> {
    fn unheld_are_zeros(&self) {
        self.below.unheld_are_zeros()
    }
}
