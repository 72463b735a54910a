// The image of a database, and its two files.
use devices::BLOCK;
use flat::Flat;
use std::alloc::{AllocError, Global};

// How many bytes the directory has, and how many blocks it has with all the pages that there may be.
const DIRECTORY: usize = 4096;

const BLOCKS: usize = 32_772;

// A device of zeros for the directory and every page.
pub fn blank(heap: Global) -> Result<Flat, AllocError> {
    let bytes = vec![in heap; 0u8; BLOCKS * BLOCK]?;
    Ok(Flat::new(bytes))
}

// The bytes of the two files: the directory, and the pages up to the last that is not blank.
pub fn files_of(image: &[u8]) -> (&[u8], &[u8]) {
    let directory = image.get(..DIRECTORY).unwrap_or(image);
    let pages = image.get(DIRECTORY..).unwrap_or(&[]);
    let mut used = 0usize;
    for (p, page) in pages.chunks(BLOCK).enumerate() {
        if page.iter().any(|byte| *byte != 0) {
            used = p.saturating_add(1);
        }
    }
    let used = pages.get(..used.saturating_mul(BLOCK)).unwrap_or(pages);
    (directory, used)
}
