// Numbers that look random, and are the same in every run.
use std::alloc::{AllocError, Global};

// The numbers, and the memory that random bytes are put in.
#[derive(Drop)]
pub struct Random {
    pub heap: Global,
    state: u64,
}

impl Random {
    // The numbers from a fixed start on. A start of 0 would stay 0.
    pub fn new(heap: Global, start: u64) -> Random {
        Random {
            heap,
            state: start | 1,
        }
    }

    // The next number.
    pub fn word(&mut self) -> u64 {
        let mut x = self.state;
        x ^= x << 13;
        x ^= x >> 7;
        x ^= x << 17;
        self.state = x;
        x.wrapping_mul(0x2545_f491_4f6c_dd1d) >> 16
    }

    // A number below n, and 0 where n is 0.
    pub fn below(&mut self, n: u32) -> u32 {
        if n == 0 {
            return 0;
        }
        let word = self.word() % u64::from(n);
        u32::try_from(word).unwrap_or(0)
    }

    // Whether one of n even chances came.
    pub fn one_in(&mut self, n: u32) -> bool {
        self.below(n) == 0
    }

    pub fn byte(&mut self) -> u8 {
        (self.word() & 0xff) as u8
    }

    // So many bytes.
    pub fn bytes(&mut self, len: usize) -> Result<Vec<u8>, AllocError> {
        let heap = self.heap;
        (0..len).map(|_| self.byte()).collect(heap)
    }
}
