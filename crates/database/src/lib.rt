// The database over any stack of devices: a directory in blocks 0 to 3, and page p in block 4 + p.
#![tactic(auto)]

mod checking;
mod deleting;
mod fetching;
mod splitting;
mod storing;
mod walking;

ghost use Rattle.std.specs.Prelude.{◌≡◌, Ok, [], ◌∷◌};
ghost use Rattle.devices.specs.Meaning.{Sound};
ghost use Rattle.devices.specs.Step.{flush as Flushes};
ghost use Rattle.lookup.specs.Made.{Made};

pub use calls::{Position, Stepped};
use devices::Device;
use faults::Fault;

// A database, which alone uses its device.
#[derive(Drop)]
pub struct Database<D> {
    pub(crate) device: D,
}

impl<D: Device> Database<D> {
    // The database on a device.
    pub fn new(device: D) -> Database<D>
        ensures { result ≡ record { device = device } }
    {
        Database { device }
    }

    // The device, again.
    pub fn into_device(self) -> D
        ensures { result ≡ self.device }
    {
        self.device
    }

    // How many blocks the device has.
    pub fn limit(&self) -> u32
        ensures value { result ≡ (D.Device.meaning self.now.device).limit }
        ensures sound { Sound (D.Device.meaning self.now.device) }
    {
        self.device.limit()
    }

    // Brings every block down to the device at the bottom.
    pub fn flush(&mut self) -> Result<(), Fault>
        ensures { Made D.Device.steps D.Device.meaning self.old.device (λ _. Flushes ∷ []) (λ _. Ok tt) result self.new.device }
    {
        self.device.flush()
    }
}
