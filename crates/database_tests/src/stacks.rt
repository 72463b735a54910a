// The same database on each stack of devices.
use crate::building::{
    Numbers, UNTOUCHED, even_page, flat_of, odd_page, split, told, write_half, write_split,
};
use cache::Cache;
use database::{Database, Stepped};
use devices::{BLOCK, Device};
use faults::Fault;
use pages::Place;
use quota::Quota;
use records::Symbol;
use slotted::Slotted;
use std::process::Abort;
use std::test::Fail;
use window::Window;

// What some calls answer, and what the last leaves in the buffer.
#[derive(Clone, Copy, PartialEq, Eq, Debug)]
struct Outcome {
    fetched: [Result<Option<Place>, Numbers>; 4],
    got: Result<Option<Symbol>, Numbers>,
    stepped: [Result<Stepped, Numbers>; 2],
    page: [u8; BLOCK],
}

// Makes the calls.
fn call<D: Device>(database: &mut Database<D>) -> Outcome {
    let mut page = UNTOUCHED;
    Outcome {
        fetched: [
            told(database.fetch(b"a", &mut page)),
            told(database.fetch(b"b", &mut page)),
            told(database.fetch(b"d", &mut page)),
            told(database.fetch(b"", &mut page)),
        ],
        got: told(database.get(b"a", &mut page)),
        stepped: [
            told(database.step((0, 0), &mut page)),
            told(database.step((0, 2), &mut page)),
        ],
        page,
    }
}

// What they come to on the split database.
fn expected() -> Result<Outcome, Fault> {
    Ok(Outcome {
        fetched: [
            Ok(Some((1021, 2))),
            Ok(Some((1020, 1))),
            Ok(None),
            Err((1, 0, 0)),
        ],
        got: Err((13, 0, 5)),
        stepped: [
            Ok(Stepped::Pair(((1021, 1), (1020, 1), (0, 2)))),
            Ok(Stepped::Pair(((1023, 1), (1021, 2), (1, 1)))),
        ],
        page: odd_page()?,
    })
}

// The split database, written and read through a device, answers as expected, and after a flush again.
fn assert_split<D: Device + Drop>(rt: &impl Abort, mut device: D, name: &str) -> Result<(), Fault> {
    write_split(&mut device)?;
    let mut database = Database::new(device);
    assert!(rt; call(&mut database) == expected()?, "{name}");
    database.flush()?;
    assert!(rt; call(&mut database) == expected()?, "{name}, flushed");
    Ok(())
}

#[test]
fn same_answers(rt: HostRuntime) -> Result<(), Fail> {
    let heap = rt.alloc();
    assert_split(&rt, flat_of(heap, 0, 6)?, "flat")?;
    let slotted = Slotted::open(heap, vec![in heap; 0; 3 * 1030]?)?;
    assert_split(&rt, slotted, "slotted")?;
    assert_split(&rt, Window::new(flat_of(heap, 7, 9)?, 3, 6), "a window")?;
    assert_split(&rt, Quota::new(flat_of(heap, 0, 6)?, 0), "a quota")?;
    assert_split(&rt, Cache::new(flat_of(heap, 0, 6)?), "a cache")?;
    Ok(())
}

#[test]
fn same_answers_on_high_stack(rt: HostRuntime) -> Result<(), Fail> {
    let heap = rt.alloc();
    let slotted = Slotted::open(heap, vec![in heap; 0; 3 * 1030]?)?;
    let stack = Cache::new(Quota::new(Window::new(slotted, 100, 9), 3));
    assert_split(&rt, stack, "all layers")?;
    Ok(())
}

// Page 1 is past the limit of a device: refused by the device at the top of the stack, with the number that it was told.
fn assert_cut<D: Device + Drop>(rt: &impl Abort, mut device: D, refused: Numbers) {
    assert_eq!(rt; told(write_half(&mut device)), Ok(()));
    let mut database = Database::new(device);
    let mut page = UNTOUCHED;
    assert_eq!(rt; told(database.fetch(b"a", &mut page)), Err(refused));
    assert_eq!(rt; told(database.step((0, 2), &mut page)), Err(refused));
    assert!(rt; page == UNTOUCHED);
}

#[test]
fn layers_past_the_limit(rt: HostRuntime) -> Result<(), Fail> {
    let heap = rt.alloc();
    assert_cut(&rt, Window::new(flat_of(heap, 0, 9)?, 3, 5), (9, 4, 5));
    assert_cut(&rt, Quota::new(flat_of(heap, 0, 5)?, 0), (9, 3, 5));
    assert_cut(&rt, Cache::new(flat_of(heap, 0, 5)?), (9, 2, 5));
    Ok(())
}

// No block is below the limit of a window past the end, nor below that of an image that is not well-formed.
#[test]
fn no_blocks(rt: HostRuntime) -> Result<(), Fail> {
    let heap = rt.alloc();
    let mut page = UNTOUCHED;
    let mut window = Database::new(Window::new(flat_of(heap, 0, 5)?, 6, 9));
    assert_eq!(rt; told(window.fetch(b"a", &mut page)), Err((9, 4, 0)));
    let mut slotted = Database::new(Slotted::open(heap, vec![in heap; 0; 1029]?)?);
    assert_eq!(rt; told(slotted.fetch(b"a", &mut page)), Err((9, 1, 0)));
    assert!(rt; page == UNTOUCHED);
    Ok(())
}

#[test]
fn device_again(rt: HostRuntime) -> Result<(), Fail> {
    let mut device = split(rt.alloc())?.into_device();
    let mut block = UNTOUCHED;
    assert_eq!(rt; told(device.read(4, &mut block)), Ok(()));
    assert!(rt; block == even_page()?);
    Ok(())
}
