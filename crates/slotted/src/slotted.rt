ghost use Rattle.std.specs.Prelude.{◌≡◌, ℕ, ◌<◌, None, vec_len, slice_index_or};
ghost use Rattle.slotted.specs.Image.{left_in, limit_in, record_in, used_in};

use crate::entry::Entry;

// Bytes as a device, with an index from block numbers to records. Bytes that are not well-formed have an empty index and no
// Option of one: no number has a record then, and no call has to ask first. How many records are used and how many are left
// could be counted anew from the bytes at each claim. The index is a vector by number: a claim may not lack memory, as one that
// puts into a map could.
#[derive(Drop)]
pub struct Slotted {
    pub(crate) bytes: Vec<u8>,
    pub(crate) index: Vec<Entry>,
    pub(crate) used: usize,
    pub(crate) left: u32,
    ghost sized: { vec_len index ≡ limit_in bytes.items },
    ghost listed: { (n : ℕ) → n < limit_in bytes.items → slice_index_or index.items n None ≡ record_in bytes.items n },
    ghost counted: { used ≡ used_in bytes.items },
    ghost rest: { left ≡ left_in bytes.items },
}
