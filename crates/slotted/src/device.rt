ghost use Rattle.std.specs.Prelude.{◌≡◌, ◌+◌, ◌*◌, ◌<◌, ◌≤◌, length, None, IfSome};
ghost use Rattle.slotted.specs.Account.{Bytewise};
ghost use Rattle.devices.specs.Bytes.{put};
ghost use Rattle.slotted.specs.Image.{left_in, limit_in, meaning_of, record_in, used_in};
ghost use Rattle.slotted.specs.Records.{fresh};

use crate::bytes::*;
use crate::entry::Entry;
use crate::slotted::Slotted;
use devices::{BLOCK, Device, ZeroUnheld, check_buffer, check_number};
use faults::{Fault, Layer, Refusal};

impl Slotted {
    // How many numbers have a block.
    #[tactic(auto, using(crate::proofs::Images::limit_le))]
    fn numbers(&self) -> u32
        ensures { result ≡ limit_in self.now.bytes.items }
    {
        self.index.len() as u32
    }

    // The record that has a number.
    #[tactic(auto, using(crate::proofs::Images::past_limit, crate::proofs::Images::record_inside))]
    fn record(&self, n: u32) -> Option<usize>
        ensures value { result ≡ record_in self.now.bytes.items n }
        ensures inside { IfSome result (λ k. RECORD * k + RECORD ≤ length self.now.bytes.items) }
    {
        self.index.get(n as usize)?.record().map(|k| k as usize)
    }

    // Uses up the first free record.
    #[tactic(auto, using(crate::proofs::Images::room_left))]
    fn take_record(&mut self, n: u32)
        requires low { n < limit_in self.old.bytes.items }
        requires none { record_in self.old.bytes.items n ≡ None }
        requires free { 0 < left_in self.old.bytes.items }
        ensures { self.new.bytes.items ≡ put self.old.bytes.items (1030 * used_in self.old.bytes.items) (fresh n) }
    {
        let at = RECORD * self.used;
        put_fresh(&mut self.bytes[at..at + RECORD], n);
        self.index[n as usize] = Entry::of(self.used as u32);
        self.used += 1;
        self.left -= 1;
    }
}

impl Device for Slotted {
    ghost meaning = { λ d. meaning_of d.bytes.items };

    ghost steps = { λ d c r e. Bytewise d.bytes.items c r e.bytes.items };

    #[tactic(auto, using(crate::proofs::Images::sound_of))]
    fn limit(&self) -> u32 {
        self.numbers()
    }

    fn left(&self) -> u32 {
        self.left
    }

    #[tactic(auto, using(crate::proofs::Images::held_record, crate::proofs::Images::held_inside))]
    fn holds(&self, n: u32) -> bool {
        self.record(n).is_some()
    }

    fn claim(&mut self, n: u32) -> Result<(), Fault> {
        check_number(Layer::Bottom, self.numbers(), n)?;
        if self.record(n).is_some() {
            return Ok(());
        }
        if self.left == 0 {
            return Err(Layer::Bottom.fault(Refusal::NoClaim, n));
        }
        self.take_record(n);
        Ok(())
    }

    fn read(&mut self, n: u32, into: &mut [u8]) -> Result<(), Fault> {
        check_buffer(Layer::Bottom, self.numbers(), n, into.len())?;
        match self.record(n) {
            Some(k) => {
                let at = RECORD * k + HEADER;
                into.copy_from_slice(&self.bytes[at..at + BLOCK]);
            }
            None => into.fill(0),
        }
        Ok(())
    }

    fn write(&mut self, n: u32, from: &[u8]) -> Result<(), Fault> {
        check_buffer(Layer::Bottom, self.numbers(), n, from.len())?;
        let Some(k) = self.record(n) else {
            return Err(Layer::Bottom.fault(Refusal::NotHeld, n));
        };
        let at = RECORD * k + HEADER;
        self.bytes[at..at + BLOCK].copy_from_slice(from);
        Ok(())
    }

    fn flush(&mut self) -> Result<(), Fault> {
        Ok(())
    }
}

impl ZeroUnheld for Slotted {
    #[tactic(auto, using(crate::proofs::Images::zeroed_of))]
    fn unheld_are_zeros(&self) {}
}
