// Pages and databases for the tests, and refusals told by their numbers.
use calls::Mode;
use database::Database;
use devices::{BLOCK, Device};
use faults::Fault;
use flat::Flat;
use page_edits::append;
use pages::PairPage;
use records::{Member, Sort, Symbol};
use slotted::Slotted;
use std::alloc::{AllocError, Global};
use std::test::Fail;

// A refusal by its numbers: why, by whom, and at which block.
pub type Numbers = (u8, u8, u32);

// What a call answers, or the numbers of its refusal. In each crate of tests: a crate for this line alone is no plainer.
pub fn told<T>(answer: Result<T, Fault>) -> Result<T, Numbers> {
    answer.map_err(|fault| (fault.number(), fault.layer_number(), fault.block))
}

// A page buffer full of sevens, so that what is left alone shows.
pub const UNTOUCHED: [u8; BLOCK] = [7; BLOCK];

// The written page of these pairs.
pub fn page_of(pairs: &[(&[u8], &[u8])]) -> Result<[u8; BLOCK], Fault> {
    let mut page = [0; BLOCK];
    for (key, value) in pairs {
        let before = page;
        append(&PairPage::read(&before), key, value, &mut page)?;
    }
    Ok(page)
}

// A block of zeros after its first byte.
pub fn block_of(first: u8) -> [u8; BLOCK] {
    let mut block = [0; BLOCK];
    block[0] = first;
    block
}

// Claims a block, which some devices ask for, and writes it.
pub fn put<D: Device>(device: &mut D, n: u32, block: &[u8; BLOCK]) -> Result<(), Fault> {
    device.claim(n)?;
    device.write(n, block)
}

// A flat device of so many blocks, filled with a byte.
pub fn flat_of(heap: Global, byte: u8, blocks: u8) -> Result<Flat, AllocError> {
    let bytes = vec![in heap; byte; usize::from(blocks) * BLOCK]?;
    Ok(Flat::new(bytes))
}

// A slotted device of so many free records.
pub fn slotted_of(heap: Global, records: u8) -> Result<Slotted, Fail> {
    let bytes = vec![in heap; 0; usize::from(records) * 1030]?;
    Ok(Slotted::open(heap, bytes)?)
}

// The block of a number.
pub fn block_at<D: Device>(device: &mut D, n: u32) -> Result<[u8; BLOCK], Fault> {
    let mut block = UNTOUCHED;
    device.read(n, &mut block)?;
    Ok(block)
}

// A value so long that no page has two.
pub const LONG: [u8; 600] = [9; 600];

// A symbol and a member: those of flash_unlock and crti.o/ in the sample.
pub const SYMBOL: Symbol = Symbol {
    address: 0x4FF0,
    section: 1,
    addend: -12,
};

pub const MEMBER: Member = Member {
    offset: 552,
    length: 424,
    sort: Sort::Data,
};

// Stores a and then c, each with a long value, in a blank database. Their hashes are 97 and 99, so that bit 1 is the first in
// which they differ: bits 0 and 2 of the directory are set, a is on page 1, and c on page 3.
pub fn store_long<D: Device>(database: &mut Database<D>) -> Result<(), Fault> {
    database.store(b"a", &LONG, Mode::Insert)?;
    database.store(b"c", &LONG, Mode::Insert)
}

// Page 0 of the split database: the stray pair (a, 3), and (b, 4).
pub fn even_page() -> Result<[u8; BLOCK], Fault> {
    page_of(&[(b"a", b"3"), (b"b", b"4")])
}

// Page 1 of the split database: (a, 12), the stray pair (d, 5), and (c, empty).
pub fn odd_page() -> Result<[u8; BLOCK], Fault> {
    page_of(&[(b"a", b"12"), (b"d", b"5"), (b"c", b"")])
}

// Writes a directory of which bit 0 is set, so that even hashes are at home on page 0 and odd ones on page 1, and page 0.
pub fn write_half<D: Device>(device: &mut D) -> Result<(), Fault> {
    put(device, 0, &block_of(1))?;
    put(device, 4, &even_page()?)
}

// Writes the split database.
pub fn write_split<D: Device>(device: &mut D) -> Result<(), Fault> {
    write_half(device)?;
    put(device, 5, &odd_page()?)
}

// The split database on a flat device. The hashes of a, b, c, d and e are 97 to 101.
pub fn split(heap: Global) -> Result<Database<Flat>, Fail> {
    let mut flat = flat_of(heap, 0, 6)?;
    write_split(&mut flat)?;
    Ok(Database::new(flat))
}

// The same with no page 1.
pub fn cut(heap: Global) -> Result<Database<Flat>, Fail> {
    let mut flat = flat_of(heap, 0, 5)?;
    write_half(&mut flat)?;
    Ok(Database::new(flat))
}

// The same with a page 1 that is not good: its count is odd.
pub fn spoiled(heap: Global) -> Result<Database<Flat>, Fail> {
    let mut flat = flat_of(heap, 0, 6)?;
    write_half(&mut flat)?;
    put(&mut flat, 5, &block_of(3))?;
    Ok(Database::new(flat))
}
