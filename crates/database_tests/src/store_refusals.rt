// What a store is refused for, and that it then changes no pair.
use crate::building::{
    LONG, Numbers, UNTOUCHED, block_at, block_of, cut, flat_of, odd_page, page_of, put, slotted_of,
    split, spoiled, store_long, told,
};
use cache::Cache;
use calls::Mode;
use database::Database;
use devices::{BLOCK, Device};
use quota::Quota;
use std::process::Abort;
use std::test::Fail;
use window::Window;

#[test]
fn store_input(rt: HostRuntime) -> Result<(), Fail> {
    let mut database = Database::new(flat_of(rt.alloc(), 0, 0)?);
    let long = [8; 1009];
    assert_eq!(rt;
        told(database.store(b"", &long, Mode::Insert)),
        Err((1, 0, 0)),
        "1 comes before 2"
    );
    assert_eq!(rt;
        told(database.store(b"a", &long[..1008], Mode::Replace)),
        Err((2, 0, 0)),
        "2 comes before 9"
    );
    assert_eq!(rt;
        told(database.store(&long, b"", Mode::Insert)),
        Err((2, 0, 0))
    );
    assert_eq!(rt;
        told(database.store(b"a", &long[..1007], Mode::Replace)),
        Err((9, 1, 0))
    );
    Ok(())
}

#[test]
fn key_exists(rt: HostRuntime) -> Result<(), Fail> {
    let mut database = split(rt.alloc())?;
    assert_eq!(rt;
        told(database.store(b"a", b"6", Mode::Insert)),
        Err((5, 0, 5))
    );
    assert_eq!(rt;
        told(database.store(b"a", &[8; 1007], Mode::Insert)),
        Err((5, 0, 5)),
        "5 comes before 8"
    );
    let mut page = UNTOUCHED;
    assert_eq!(rt; told(database.fetch(b"a", &mut page)), Ok(Some((1021, 2))));
    assert!(rt; page == odd_page()?, "nothing was written");
    Ok(())
}

#[test]
fn store_home(rt: HostRuntime) -> Result<(), Fail> {
    let heap = rt.alloc();
    let past_limit = told(cut(heap)?.store(b"a", b"6", Mode::Insert));
    assert_eq!(rt; past_limit, Err((9, 1, 5)));
    let not_good = told(spoiled(heap)?.store(b"a", b"6", Mode::Insert));
    assert_eq!(rt; not_good, Err((6, 0, 5)));
    Ok(())
}

// Bit 0 is clear, and one under it is set.
#[test]
fn bit_below(rt: HostRuntime) -> Result<(), Fail> {
    let heap = rt.alloc();
    for bits in [2, 4, 6] {
        let mut flat = flat_of(heap, 0, 9)?;
        put(&mut flat, 0, &block_of(bits))?;
        let mut database = Database::new(flat);
        assert_eq!(rt;
            told(store_long(&mut database)),
            Err((7, 0, 0)),
            "bits {bits}"
        );
        let mut device = database.into_device();
        assert!(rt; block_at(&mut device, 0)? == block_of(bits), "bits {bits}");
        assert!(rt; block_at(&mut device, 4)? == page_of(&[(b"a", &LONG)])?);
    }
    Ok(())
}

// Every bit is set but bit 12,479, at depth 13, in the directory's second block: page 97 is that of a and of pbve, whose hashes
// differ in bit 13.
#[test]
fn bit_below_in_another_block(rt: HostRuntime) -> Result<(), Fail> {
    let mut flat = flat_of(rt.alloc(), 255, 102)?;
    let mut bits = [255; BLOCK];
    bits[535] = 127;
    put(&mut flat, 1, &bits)?;
    put(&mut flat, 101, &page_of(&[(b"pbve", &LONG)])?)?;
    let mut database = Database::new(flat);
    assert_eq!(rt;
        told(database.store(b"a", &LONG, Mode::Insert)),
        Err((7, 0, 1))
    );
    Ok(())
}

// The hash of 01 22 agrees with that of a in the low 16 bits.
#[test]
fn no_plan(rt: HostRuntime) -> Result<(), Fail> {
    let mut database = Database::new(slotted_of(rt.alloc(), 8)?);
    assert_eq!(rt; told(store_long(&mut database)), Ok(()));
    assert_eq!(rt;
        told(database.store(b"\x01\x22", &LONG, Mode::Insert)),
        Err((8, 0, 5))
    );
    let mut device = database.into_device();
    assert_eq!(rt; device.left(), 4, "nothing was claimed");
    assert!(rt; block_at(&mut device, 0)? == block_of(5));
    assert!(rt; block_at(&mut device, 5)? == page_of(&[(b"a", &LONG)])?);
    Ok(())
}

// The second store splits page 0, and page 1 is past the limit, or no claim is left for it: c is not stored, and a is held still.
fn assert_refused<D: Device + Drop>(
    rt: &impl Abort,
    device: D,
    refused: Numbers,
) -> Result<(), Fail> {
    let mut database = Database::new(device);
    assert_eq!(rt; told(store_long(&mut database)), Err(refused));
    let mut page = UNTOUCHED;
    assert_eq!(rt; told(database.fetch(b"c", &mut page)), Ok(None));
    assert_eq!(rt; told(database.fetch(b"a", &mut page)), Ok(Some((423, 600))));
    assert!(rt; page == page_of(&[(b"a", &LONG)])?);
    Ok(())
}

#[test]
fn upper_page_past_the_limit(rt: HostRuntime) -> Result<(), Fail> {
    let heap = rt.alloc();
    assert_refused(&rt, flat_of(heap, 0, 5)?, (9, 1, 5))?;
    assert_refused(&rt, Cache::new(flat_of(heap, 0, 5)?), (9, 2, 5))?;
    assert_refused(&rt, Window::new(flat_of(heap, 0, 9)?, 3, 5), (9, 4, 5))?;
    Ok(())
}

// Below the window the block has another number.
#[test]
fn no_claim(rt: HostRuntime) -> Result<(), Fail> {
    let heap = rt.alloc();
    assert_refused(&rt, slotted_of(heap, 1)?, (10, 1, 5))?;
    assert_refused(&rt, Quota::new(slotted_of(heap, 9)?, 1), (10, 3, 5))?;
    assert_refused(&rt, Window::new(slotted_of(heap, 1)?, 30, 99), (10, 1, 35))?;
    Ok(())
}

// What was claimed before a claim that is refused stays claimed: pages 0 and 1, the directory's block, and then none is left
// for page 3.
#[test]
fn claims_stay(rt: HostRuntime) -> Result<(), Fail> {
    let mut database = Database::new(slotted_of(rt.alloc(), 3)?);
    assert_eq!(rt; told(store_long(&mut database)), Err((10, 1, 7)));
    let mut device = database.into_device();
    assert_eq!(rt; device.left(), 0);
    assert!(rt; device.holds(0));
    assert!(rt; device.holds(5));
    assert!(rt; block_at(&mut device, 0)? == block_of(0), "no bit was set");
    assert!(rt; block_at(&mut device, 5)? == page_of(&[])?);
    Ok(())
}
