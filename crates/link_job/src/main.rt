// A job of a librarian and of a linker: they make databases on images of blank records, which are opened again and read.
#![tactic(auto)]

mod ask;
mod names;
mod tally;
mod telling;
mod work;

use ask::Ask;
use cache::Cache;
use database::Database;
use names::{member_puts, symbol_puts};
use quota::Quota;
use slotted::Slotted;
use std::alloc::{AllocError, Global};
use work::{MEMBER, SYMBOL, walk, work};

// A header and a block.
const RECORD: usize = 1030;

// How many records the images have, and how many of them the linker may claim where there is a quota.
const RECORDS: usize = 12;

const CLAIMS: u32 = 2;

fn main(rt: HostRuntime) -> anyhow::Result<()> {
    let library = make_library(&rt)?;
    let program = make_program(&rt)?;
    let part = make_part(&rt)?;
    read_library(&rt, library)?;
    read_program(&rt, program)?;
    read_part(&rt, part)
}

// A database on blank records: the librarian puts members on the bare device.
fn make_library(rt: &HostRuntime) -> anyhow::Result<Vec<u8>> {
    println!(rt; "library: members, put on the bare device")?;
    let mut asks = member_puts(rt.alloc())?;
    asks.push(Ask::Flush)?;
    let mut database = Database::new(blank(rt.alloc())?);
    work(rt, &mut database, asks.as_slice())?;
    Ok(database.into_device().into_bytes())
}

// The linker puts symbols through a cache.
fn make_program(rt: &HostRuntime) -> anyhow::Result<Vec<u8>> {
    println!(rt; "program: symbols, put through a cache")?;
    let mut asks = symbol_puts(rt.alloc())?;
    asks.push(Ask::Flush)?;
    let mut database = Database::new(Cache::new(blank(rt.alloc())?));
    work(rt, &mut database, asks.as_slice())?;
    Ok(database.into_device().into_below().into_bytes())
}

// The same under a quota that is too small for all of them.
fn make_part(rt: &HostRuntime) -> anyhow::Result<Vec<u8>> {
    println!(rt; "part: the same symbols, put through a cache over a quota of {CLAIMS} claims")?;
    let mut asks = symbol_puts(rt.alloc())?;
    asks.push(Ask::Flush)?;
    let bottom = Quota::new(blank(rt.alloc())?, CLAIMS);
    let mut database = Database::new(Cache::new(bottom));
    work(rt, &mut database, asks.as_slice())?;
    Ok(
        database
            .into_device()
            .into_below()
            .into_below()
            .into_bytes(),
    )
}

// The library is opened again: a walk, names looked up, and one deleted.
fn read_library(rt: &HostRuntime, image: Vec<u8>) -> anyhow::Result<()> {
    println!(rt; "library, opened again")?;
    let asks = [
        Ask::Get(b"crt0.o/", MEMBER),
        Ask::Get(b"README/", MEMBER),
        Ask::Get(b"printf.o/", MEMBER),
        Ask::Get(b"sine_table.o/", SYMBOL),
        Ask::Fetch(b"memcpy.o/"),
        Ask::Fetch(b""),
        Ask::Delete(b"strtol.o/"),
        Ask::Delete(b"printf.o/"),
        Ask::Get(b"strtol.o/", MEMBER),
        Ask::Flush,
    ];
    read(rt, image, &asks)
}

// The same of the program.
fn read_program(rt: &HostRuntime, image: Vec<u8>) -> anyhow::Result<()> {
    println!(rt; "program, opened again")?;
    let asks = [
        Ask::Get(b"main", SYMBOL),
        Ask::Get(b"vector_table", SYMBOL),
        Ask::Get(b"exit", SYMBOL),
        Ask::Get(b"main", MEMBER),
        Ask::Fetch(b"heap_area"),
        Ask::Delete(b"_ZN7drivers4uart5flushEv"),
        Ask::Get(b"_ZN7drivers4uart5flushEv", SYMBOL),
        Ask::Flush,
    ];
    read(rt, image, &asks)
}

// The same of the part that the quota left room for.
fn read_part(rt: &HostRuntime, image: Vec<u8>) -> anyhow::Result<()> {
    println!(rt; "part, opened again")?;
    let asks = [
        Ask::Get(b"main", SYMBOL),
        Ask::Get(b"heap_area", SYMBOL),
        Ask::Delete(b"main"),
        Ask::Get(b"main", SYMBOL),
        Ask::Flush,
    ];
    read(rt, image, &asks)
}

// Walks a database on an image, asks this of it, and says how many pairs are left.
fn read(rt: &HostRuntime, image: Vec<u8>, asks: &[Ask]) -> anyhow::Result<()> {
    let mut database = Database::new(Slotted::open(rt.alloc(), image)?);
    for pair in walk(rt.alloc(), &mut database)?.iter() {
        println!(rt; "  {pair}")?;
    }
    work(rt, &mut database, asks)?;
    let left = walk(rt.alloc(), &mut database)?.len();
    println!(rt; "  {left} pairs left")?;
    Ok(())
}

// A device of blank records.
fn blank(heap: Global) -> Result<Slotted, AllocError> {
    let bytes = vec![in heap; 0u8; RECORDS * RECORD]?;
    Ok(Slotted::open(heap, bytes)?)
}
