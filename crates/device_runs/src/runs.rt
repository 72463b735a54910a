// A random list of calls on a device and on the model, and what they answer, side by side.
use crate::counts::Counts;
use crate::failure::with_memory;
use crate::model::{Answer, Model};
use crate::random::Random;
use crate::store::BLOCK;
use crate::tally::Tally;
use devices::Device;
use std::alloc::{AllocError, Global};
use std::io;
use thiserror::Error;

// Why the runs stop early.
#[derive(Debug, Drop, Error)]
pub enum Stop {
    #[error("no memory")]
    Memory(#[from(alloc)] AllocError),
    #[error(transparent)]
    Output(#[from] io::Error),
    #[error("{0}")]
    Differs(String),
}

// A call: on which number, and with how long a buffer.
#[derive(Clone, Copy, Debug)]
enum Call {
    Claim(u32),
    Read(u32, usize),
    Write(u32, usize),
    Flush,
}

// What a run needs besides the device.
#[derive(Drop)]
pub struct Bench {
    pub heap: Global,
    pub random: Random,
    pub model: Model,
    pub tally: Tally,
}

impl Bench {
    // A number to call with: a small one, but for one in six.
    fn number(&mut self) -> u32 {
        let limit = self.model.limit();
        if self.random.one_in(6) {
            edge(&mut self.random, limit)
        } else {
            self.random.below(limit.min(20).max(4))
        }
    }

    // A random call.
    fn next_call(&mut self) -> Call {
        let n = self.number();
        match self.random.below(20) {
            0..=3 => Call::Claim(n),
            4..=9 => Call::Read(n, length(&mut self.random)),
            10..=18 => Call::Write(n, length(&mut self.random)),
            _ => Call::Flush,
        }
    }

    // Makes a call on the device and on the model, and compares what they answer. By kind of call, which is data: it is printed
    // where they differ.
    fn step<D: Device>(&mut self, device: &mut D, call: Call) -> Result<(), Stop> {
        match call {
            Call::Claim(n) => {
                let got = device.claim(n);
                let wanted = with_memory(self.model.claim(n))?;
                self.same_answer(call, got, wanted)
            }
            Call::Read(n, len) => self.read(device, n, len),
            Call::Write(n, len) => {
                let bytes = self.random.bytes(len)?;
                let got = device.write(n, bytes.as_slice());
                let wanted = with_memory(self.model.write(n, bytes.as_slice()))?;
                self.same_answer(call, got, wanted)
            }
            Call::Flush => {
                let got = device.flush();
                let wanted = with_memory(self.model.flush())?;
                self.same_answer(call, got, wanted)
            }
        }
    }

    // Reads into two buffers that begin with the same random bytes, and compares these too.
    fn read<D: Device>(&mut self, device: &mut D, n: u32, len: usize) -> Result<(), Stop> {
        let call = Call::Read(n, len);
        let mut got_bytes = self.random.bytes(len)?;
        let mut wanted_bytes = got_bytes.clone()?;
        let got = device.read(n, got_bytes.as_mut_slice());
        let wanted = with_memory(self.model.read(n, &mut wanted_bytes))?;
        self.same_answer(call, got, wanted)?;
        if got_bytes.as_slice() == wanted_bytes.as_slice() {
            return Ok(());
        }
        let text = format!(in self.heap; "{call:?} leaves other bytes in the buffer")?;
        Err(Stop::Differs(text))
    }

    // Counts a call and compares the answers.
    fn same_answer(&mut self, call: Call, got: Answer, wanted: Answer) -> Result<(), Stop> {
        self.tally.count(got);
        if got == wanted {
            return Ok(());
        }
        let text = format!(in self.heap; "{call:?} answers {got:?}, and has to answer {wanted:?}")?;
        Err(Stop::Differs(text))
    }

    // Compares what the questions answer: the limit, the claims left, and whether a number is held.
    fn ask<D: Device>(&self, device: &D, n: u32) -> Result<(), Stop> {
        let got = (device.limit(), device.left(), device.holds(n));
        let wanted = (self.model.limit(), self.model.left(), self.model.holds(n));
        if got == wanted {
            return Ok(());
        }
        let text = format!(in self.heap;
            "limit, left and holds({n}) are {got:?}, and have to be {wanted:?}"
        )?;
        Err(Stop::Differs(text))
    }

    // Compares the blocks of the numbers that the calls are made with.
    fn read_all<D: Device>(&mut self, device: &mut D) -> Result<(), Stop> {
        let limit = self.model.limit();
        for n in 0..20 {
            self.ask(device, n)?;
            self.read(device, n, BLOCK)?;
        }
        for _ in 0..4 {
            let n = edge(&mut self.random, limit);
            self.read(device, n, BLOCK)?;
        }
        Ok(())
    }

    // Makes so many random calls, and compares the questions after each, and all blocks from time to time.
    pub fn run<D: Device>(&mut self, device: &mut D, calls: u32) -> Result<(), Stop> {
        for _ in 0..calls {
            let call = self.next_call();
            self.step(device, call)?;
            for _ in 0..3 {
                let n = self.number();
                self.ask(device, n)?;
            }
            if self.random.one_in(60) {
                self.read_all(device)?;
            }
        }
        Ok(())
    }

    // Compares how many calls came down to the bottom.
    pub fn same_counts(&self, got: Counts) -> Result<(), Stop> {
        let wanted = self.model.counts();
        if got == wanted {
            return Ok(());
        }
        let text = format!(in self.heap; "the bottom had {got:?}, and has to have had {wanted:?}")?;
        Err(Stop::Differs(text))
    }

    // Compares the bytes of the bottom.
    pub fn same_image(&self, got: &[u8]) -> Result<(), Stop> {
        let wanted = self.model.image()?;
        if got == wanted.as_slice() {
            return Ok(());
        }
        let text = format!(in self.heap; "the bytes of the bottom differ")?;
        Err(Stop::Differs(text))
    }
}

// A number at one of the edges.
pub fn edge(random: &mut Random, limit: u32) -> u32 {
    match random.below(8) {
        0 => limit.saturating_sub(1),
        1 => limit,
        2 => limit.saturating_add(1),
        3 => 65_543,
        4 => 65_544,
        5 => u32::MAX,
        6 => 65_536_u32.saturating_add(random.below(8)),
        _ => 0,
    }
}

// A length of a buffer: a block's, but for one in twelve.
fn length(random: &mut Random) -> usize {
    if !random.one_in(12) {
        return BLOCK;
    }
    match random.below(6) {
        0 => 0,
        1 => 1,
        2 => 1023,
        3 => 1025,
        4 => 2048,
        _ => 1030,
    }
}
