// How many calls came down to a device.
#[derive(Clone, Copy, PartialEq, Eq, Debug, Default)]
pub struct Counts {
    pub claims: u64,
    pub reads: u64,
    pub writes: u64,
    pub flushes: u64,
}

// One more.
pub fn count(counter: &mut u64) {
    *counter = counter.saturating_add(1);
}
