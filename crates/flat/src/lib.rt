// The caller's bytes as consecutive blocks.
#![tactic(auto)]

ghost use Rattle.std.specs.Prelude.{◌≡◌, ◌*◌, ◌<◌, length};
ghost use Rattle.devices.specs.Bytes.{put};
ghost use Rattle.flat.specs.Blocks.{Went, blocks, flat};

use devices::{BLOCK, Device, MOST_BLOCKS, ZeroUnheld, check_buffer, check_number};
use faults::{Fault, Layer};

// A device that is its bytes: every whole block is held. Bytes after the last whole block, and past the most that a device
// may have, are never touched.
#[derive(Drop)]
pub struct Flat {
    bytes: Vec<u8>,
}

impl Flat {
    // The bytes as a device.
    pub fn new(bytes: Vec<u8>) -> Flat
        ensures { result ≡ record { bytes = bytes } }
    {
        Flat { bytes }
    }

    // The bytes, again.
    pub fn into_bytes(self) -> Vec<u8>
        ensures { result ≡ self.bytes }
    {
        self.bytes
    }

    // How many blocks there are.
    fn whole_blocks(&self) -> u32
        ensures { result ≡ blocks self.now.bytes.items }
    {
        (self.bytes.len() / BLOCK).min(MOST_BLOCKS as usize) as u32
    }

    // Makes these bytes block n.
    fn put_block(&mut self, n: u32, from: &[u8])
        requires there { n < blocks self.old.bytes.items }
        requires whole { length from.now ≡ 1024 }
        ensures { self.new.bytes.items ≡ put self.old.bytes.items (1024 * n) from.now }
    {
        let at = BLOCK * n as usize;
        let block = &mut self.bytes[at..at + BLOCK];
        block.copy_from_slice(from);
    }
}

impl Device for Flat {
    ghost meaning = { λ f. flat f.bytes.items };

    ghost steps = { λ f c r g. Went f.bytes.items c r g.bytes.items };

    fn limit(&self) -> u32 {
        self.whole_blocks()
    }

    fn left(&self) -> u32 {
        0
    }

    fn holds(&self, n: u32) -> bool {
        n < self.whole_blocks()
    }

    fn claim(&mut self, n: u32) -> Result<(), Fault> {
        check_number(Layer::Bottom, self.whole_blocks(), n)
    }

    fn read(&mut self, n: u32, into: &mut [u8]) -> Result<(), Fault> {
        check_buffer(Layer::Bottom, self.whole_blocks(), n, into.len())?;
        let from = BLOCK * n as usize;
        into.copy_from_slice(&self.bytes[from..from + BLOCK]);
        Ok(())
    }

    fn write(&mut self, n: u32, from: &[u8]) -> Result<(), Fault> {
        check_buffer(Layer::Bottom, self.whole_blocks(), n, from.len())?;
        self.put_block(n, from);
        Ok(())
    }

    fn flush(&mut self) -> Result<(), Fault> {
        Ok(())
    }
}

impl ZeroUnheld for Flat {
    fn unheld_are_zeros(&self) {}
}
