// What a store leaves: the pair, the other pairs, and the pages of a split.
use crate::building::{
    LONG, UNTOUCHED, block_at, block_of, even_page, flat_of, page_of, slotted_of, split,
    store_long, told,
};
use calls::Mode;
use database::Database;
use devices::Device;
use std::test::Fail;

// The new pair comes after the others, and the page's stray pair is gone.
#[test]
fn replaces(rt: HostRuntime) -> Result<(), Fail> {
    let mut database = split(rt.alloc())?;
    assert_eq!(rt; told(database.store(b"a", b"345", Mode::Replace)), Ok(()));
    let mut page = UNTOUCHED;
    assert_eq!(rt; told(database.fetch(b"a", &mut page)), Ok(Some((1019, 3))));
    assert!(rt; page == page_of(&[(b"c", b""), (b"a", b"345")])?);
    assert_eq!(rt; told(database.fetch(b"b", &mut page)), Ok(Some((1020, 1))));
    assert!(rt; page == even_page()?, "the other page");
    Ok(())
}

#[test]
fn inserts(rt: HostRuntime) -> Result<(), Fail> {
    let mut database = split(rt.alloc())?;
    assert_eq!(rt; told(database.store(b"e", b"6", Mode::Insert)), Ok(()));
    let mut page = UNTOUCHED;
    assert_eq!(rt; told(database.fetch(b"e", &mut page)), Ok(Some((1018, 1))));
    assert!(rt; page == page_of(&[(b"a", b"12"), (b"c", b""), (b"e", b"6")])?);
    Ok(())
}

#[test]
fn longest_pair(rt: HostRuntime) -> Result<(), Fail> {
    let mut database = Database::new(flat_of(rt.alloc(), 0, 5)?);
    let value = [8; 1007];
    assert_eq!(rt; told(database.store(b"a", &value, Mode::Insert)), Ok(()));
    let mut page = UNTOUCHED;
    assert_eq!(rt; told(database.fetch(b"a", &mut page)), Ok(Some((16, 1007))));
    assert!(rt; page == page_of(&[(b"a", &value)])?);
    Ok(())
}

// Four of eight records are claimed: the directory's first block, and pages 0, 1 and 3.
#[test]
fn splits(rt: HostRuntime) -> Result<(), Fail> {
    let mut database = Database::new(slotted_of(rt.alloc(), 8)?);
    assert_eq!(rt; told(store_long(&mut database)), Ok(()));
    let mut device = database.into_device();
    assert_eq!(rt; device.left(), 4);
    assert!(rt; block_at(&mut device, 0)? == block_of(5), "bits 0 and 2");
    assert!(rt; block_at(&mut device, 4)? == page_of(&[])?);
    assert!(rt; block_at(&mut device, 5)? == page_of(&[(b"a", &LONG)])?);
    assert!(rt; device.holds(4));
    assert!(rt; !device.holds(6));
    assert!(rt; block_at(&mut device, 7)? == page_of(&[(b"c", &LONG)])?);
    Ok(())
}
