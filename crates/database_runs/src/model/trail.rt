// Which calls were made on a device, in order: how many, and what they were, mixed.

#[derive(Clone, Copy, PartialEq, Eq, Debug, Default)]
pub struct Trail {
    calls: u64,
    mixed: u64,
}

impl Trail {
    // One more claim.
    pub fn claim(&mut self, n: u32) {
        self.note(1, n);
    }

    // One more read.
    pub fn read(&mut self, n: u32) {
        self.note(2, n);
    }

    // One more write, of these bytes.
    pub fn write(&mut self, n: u32, from: &[u8]) {
        self.note(3, n);
        let (words, _) = from.as_chunks::<8>();
        for word in words {
            self.mix(u64::from_le_bytes(*word));
        }
    }

    // One more flush.
    pub fn flush(&mut self) {
        self.note(4, 0);
    }

    fn note(&mut self, kind: u64, n: u32) {
        self.calls = self.calls.saturating_add(1);
        self.mix(kind);
        self.mix(u64::from(n));
    }

    fn mix(&mut self, word: u64) {
        self.mixed = self
            .mixed
            .wrapping_mul(0x2545_f491_4f6c_dd1d)
            .wrapping_add(word)
            .rotate_left(29);
    }
}
