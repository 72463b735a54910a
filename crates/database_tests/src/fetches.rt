// What a fetch finds, and the page that it leaves in the caller's buffer.
use crate::building::{UNTOUCHED, even_page, flat_of, odd_page, page_of, put, split, told};
use database::Database;
use pages::view;
use std::test::Fail;

#[test]
fn finds(rt: HostRuntime) -> Result<(), Fail> {
    let mut database = split(rt.alloc())?;
    let mut page = UNTOUCHED;
    assert_eq!(rt; told(database.fetch(b"a", &mut page)), Ok(Some((1021, 2))));
    assert!(rt; page == odd_page()?);
    assert_eq!(rt; told(view(&page, (1021, 2))), Ok(b"12".as_slice()));
    assert_eq!(rt; told(database.fetch(b"b", &mut page)), Ok(Some((1020, 1))));
    assert!(rt; page == even_page()?);
    Ok(())
}

#[test]
fn finds_none(rt: HostRuntime) -> Result<(), Fail> {
    let mut database = split(rt.alloc())?;
    let mut page = UNTOUCHED;
    assert_eq!(rt;
        told(database.fetch(b"d", &mut page)),
        Ok(None),
        "a stray pair"
    );
    assert!(rt; page == even_page()?);
    assert_eq!(rt; told(database.fetch(b"e", &mut page)), Ok(None));
    assert!(rt; page == odd_page()?);
    Ok(())
}

// With every bit set the lookup of a ends at depth 15: its page is its hash.
#[test]
fn finds_at_the_last_depth(rt: HostRuntime) -> Result<(), Fail> {
    let mut flat = flat_of(rt.alloc(), 255, 102)?;
    let home = page_of(&[(b"b", b"4"), (b"a", b"12")])?;
    put(&mut flat, 4 + 97, &home)?;
    let mut database = Database::new(flat);
    let mut page = UNTOUCHED;
    assert_eq!(rt; told(database.fetch(b"a", &mut page)), Ok(Some((1019, 2))));
    assert!(rt; page == home);
    Ok(())
}
