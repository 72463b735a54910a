// A page device: what it means, what a call may answer, and which calls were made.
#![tactic(auto)]

ghost use Rattle.std.specs.Prelude.{◌≡◌, ◌<◌, true, length};
ghost use Rattle.devices.specs.Checked.{buffer_checked, number_checked};
ghost use Rattle.devices.specs.Meaning.{Meaning, Sound, Zeroed};
ghost use Rattle.devices.specs.Step.{Filled, claim as Claims, flush as Flushes, read as Reads, write as Writes};
ghost use Rattle.devices.specs.Trace.{Account, Did};

use faults::{Fault, Layer, Refusal};

// How many bytes a block has, and how many blocks a device has at most.
pub const BLOCK: usize = 1024;

pub const MOST_BLOCKS: u32 = 65_544;

// Numbered blocks of 1,024 bytes. `meaning` says what the device is to its user, and `steps` is its own account of a call.
pub trait Device {
    ghost meaning: { Self → Meaning };

    ghost steps: { Account Self };

    // The numbers below it have a block. It is at most 65,544.
    fn limit(&self) -> u32
        ensures value { result ≡ (meaning self.now).limit }
        ensures sound { Sound (meaning self.now) };

    // How many more numbers may be claimed.
    fn left(&self) -> u32
        ensures { result ≡ (meaning self.now).left };

    // Whether a number is held, so that its block may be written.
    fn holds(&self, n: u32) -> bool
        ensures value { result ≡ (meaning self.now).held n }
        ensures inside { result ≡ true → n < (meaning self.now).limit };

    // Takes hold of a number.
    fn claim(&mut self, n: u32) -> Result<(), Fault>
        ensures { Did steps meaning self.old (Claims n) result self.new };

    // Copies a block into the buffer, which a refusal leaves alone.
    fn read(&mut self, n: u32, into: &mut [u8]) -> Result<(), Fault>
        ensures step { Did steps meaning self.old (Reads n (length into.old)) result self.new }
        ensures into { Filled (meaning self.old) n result into.old into.new };

    // Makes these bytes the block.
    fn write(&mut self, n: u32, from: &[u8]) -> Result<(), Fault>
        ensures { Did steps meaning self.old (Writes n from.now) result self.new };

    // Brings every block down to the device at the bottom.
    fn flush(&mut self) -> Result<(), Fault>
        ensures { Did steps meaning self.old Flushes result self.new };
}

// A device on which the block of a number that is not held is zeros. It stands apart: not every device will keep to it.
pub trait ZeroUnheld: Device {
    // There is nothing to run: the promise is the point.
    fn unheld_are_zeros(&self)
        ensures { Zeroed (Self.Device.meaning self.now) };
}

// A device behind a mutable reference is a device, so that a stack can be lent.
impl<D: Device> Device for &mut D {
    ghost meaning = { λ d. D.Device.meaning d.now };

    ghost steps = { λ d c r e. D.Device.steps d.now c r e.now };

    fn limit(&self) -> u32 {
        (**self).limit()
    }

    fn left(&self) -> u32 {
        (**self).left()
    }

    fn holds(&self, n: u32) -> bool {
        (**self).holds(n)
    }

    fn claim(&mut self, n: u32) -> Result<(), Fault> {
        (**self).claim(n)
    }

    fn read(&mut self, n: u32, into: &mut [u8]) -> Result<(), Fault> {
        (**self).read(n, into)
    }

    fn write(&mut self, n: u32, from: &[u8]) -> Result<(), Fault> {
        (**self).write(n, from)
    }

    fn flush(&mut self) -> Result<(), Fault> {
        (**self).flush()
    }
}

impl<D: ZeroUnheld> ZeroUnheld for &mut D {
    fn unheld_are_zeros(&self) {
        (**self).unheld_are_zeros()
    }
}

// What every call on a number begins with: one that is not below the limit is refused by the layer.
pub fn check_number(layer: Layer, limit: u32, n: u32) -> Result<(), Fault>
    ensures { result ≡ number_checked layer limit n }
{
    if n < limit {
        Ok(())
    } else {
        Err(layer.fault(Refusal::PastLimit, n))
    }
}

// The same of a call with a buffer of this length, which comes first: it has to be a block.
pub fn check_buffer(layer: Layer, limit: u32, n: u32, len: usize) -> Result<(), Fault>
    ensures { result ≡ buffer_checked layer limit n len }
{
    if len != BLOCK {
        return Err(layer.fault(Refusal::NotABlock, 0));
    }
    check_number(layer, limit, n)
}
