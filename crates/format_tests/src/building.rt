// Pages for the tests, built from numbers and bytes, and refusals told by their numbers.
use faults::Fault;

// A refusal by its numbers: why, by whom, and at which block.
pub type Numbers = (u8, u8, u32);

// What a call answers, or the numbers of its refusal. In each crate of tests: a crate for this line alone is no plainer.
pub fn told<T>(answer: Result<T, Fault>) -> Result<T, Numbers> {
    answer.map_err(|fault| (fault.number(), fault.layer_number(), fault.block))
}

// A page that starts with these 16-bit numbers, its count and its offsets, and ends with these bytes.
pub fn page_of(numbers: &[u16], tail: &[u8]) -> [u8; 1024] {
    let mut page = [0u8; 1024];
    let (places, _) = page.as_chunks_mut::<2>();
    for (place, n) in places.iter_mut().zip(numbers) {
        *place = n.to_le_bytes();
    }
    for (place, byte) in page.iter_mut().rev().zip(tail.iter().rev()) {
        *place = *byte;
    }
    page
}

// The page of the pairs (a, 12) and (b, empty), with its bytes as docs/FORMAT.md has them.
pub fn worked_page() -> [u8; 1024] {
    let mut page = [0u8; 1024];
    page[..10].copy_from_slice(&[4, 0, 0xFF, 3, 0xFD, 3, 0xFC, 3, 0xFC, 3]);
    page[1020..].copy_from_slice(&[0x62, 0x31, 0x32, 0x61]);
    page
}
