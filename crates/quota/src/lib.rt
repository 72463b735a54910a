// A limit on the claims over any device.
#![tactic(auto)]

ghost use Rattle.std.specs.Prelude.{◌≡◌};
ghost use Rattle.devices.specs.Trace.{Did};
ghost use Rattle.quota.specs.Ration.{Rationed, rationed};

use devices::{Device, ZeroUnheld, check_buffer, check_number};
use faults::{Fault, Layer, Refusal};

// A device of which only so many more numbers may be claimed.
#[derive(Drop)]
pub struct Quota<D> {
    below: D,
    remainder: u32,
}

impl<D: Device> Quota<D> {
    // A quota of so many claims over a device.
    pub fn new(below: D, remainder: u32) -> Quota<D>
        ensures { result ≡ record { below = below; remainder = remainder } }
    {
        Quota { below, remainder }
    }

    // The device below, again.
    pub fn into_below(self) -> D
        ensures { result ≡ self.below }
    {
        self.below
    }
}

impl<D: Device> Device for Quota<D> {
    ghost meaning = { λ q. rationed q.remainder (D.Device.meaning q.below) };

    ghost steps = { λ q c r t. Rationed (Did D.Device.steps D.Device.meaning) (D.Device.meaning q.below) q.below q.remainder c r t.below t.remainder };

    fn limit(&self) -> u32 {
        self.below.limit()
    }

    fn left(&self) -> u32 {
        self.remainder.min(self.below.left())
    }

    fn holds(&self, n: u32) -> bool {
        self.below.holds(n)
    }

    fn claim(&mut self, n: u32) -> Result<(), Fault> {
        check_number(Layer::Quota, self.below.limit(), n)?;
        if self.below.holds(n) {
            return self.below.claim(n);
        }
        if self.remainder == 0 {
            return Err(Layer::Quota.fault(Refusal::NoClaim, n));
        }
        self.below.claim(n)?;
        self.remainder -= 1;
        Ok(())
    }

    fn read(&mut self, n: u32, into: &mut [u8]) -> Result<(), Fault> {
        check_buffer(Layer::Quota, self.below.limit(), n, into.len())?;
        self.below.read(n, into)
    }

    fn write(&mut self, n: u32, from: &[u8]) -> Result<(), Fault> {
        check_buffer(Layer::Quota, self.below.limit(), n, from.len())?;
        if !self.below.holds(n) {
            return Err(Layer::Quota.fault(Refusal::NotHeld, n));
        }
        self.below.write(n, from)
    }

    fn flush(&mut self) -> Result<(), Fault> {
        self.below.flush()
    }
}

impl<D: ZeroUnheld> ZeroUnheld for Quota<D> {
    fn unheld_are_zeros(&self) {
        self.below.unheld_are_zeros()
    }
}
