// Numbered blocks, and the numbers in their bytes.

// How many bytes a block has. It stands here anew, so that a wrong one of the library's shows.
pub const BLOCK: usize = 1024;

// A block that a device has to show. A stale one it does not show yet: it has to be written.
#[derive(Clone, Copy)]
pub struct Numbered {
    pub number: u32,
    pub bytes: [u8; BLOCK],
    pub stale: bool,
}

impl Numbered {
    // What an image has for it at first.
    pub fn first_bytes(&self) -> [u8; BLOCK] {
        if self.stale {
            [0xa5; BLOCK]
        } else {
            self.bytes
        }
    }
}

// The 16-bit number at a byte, low byte first.
pub fn number_at(bytes: &[u8], at: usize) -> usize {
    let low = byte_at(bytes, at);
    let high = byte_at(bytes, at.saturating_add(1));
    usize::from(low).saturating_add(usize::from(high).saturating_mul(256))
}

// Makes it this number.
pub fn put_number(bytes: &mut [u8], at: usize, number: usize) {
    let low = (number & 255) as u8;
    let high = (number >> 8 & 255) as u8;
    put_byte(bytes, at, low);
    put_byte(bytes, at.saturating_add(1), high);
}

// Past the end there are zeros.
pub fn byte_at(bytes: &[u8], at: usize) -> u8 {
    bytes.get(at).copied().unwrap_or(0)
}

// Past the end nothing is put.
pub fn put_byte(bytes: &mut [u8], at: usize, byte: u8) {
    if let Some(old) = bytes.get_mut(at) {
        *old = byte;
    }
}

// Puts a part in, unless it reaches past the end.
pub fn put_bytes(bytes: &mut [u8], at: usize, part: &[u8]) {
    if let Some(to) = bytes.get_mut(at..at.saturating_add(part.len())) {
        to.copy_from_slice(part);
    }
}
