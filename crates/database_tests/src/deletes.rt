// What a delete leaves, and what it is refused for.
use crate::building::{
    UNTOUCHED, block_at, block_of, cut, even_page, flat_of, odd_page, page_of, put, split, spoiled,
    told,
};
use database::Database;
use std::test::Fail;

// The page's stray pair goes with it.
#[test]
fn deletes(rt: HostRuntime) -> Result<(), Fail> {
    let mut database = split(rt.alloc())?;
    assert_eq!(rt; told(database.delete(b"a")), Ok(true));
    let mut page = UNTOUCHED;
    assert_eq!(rt; told(database.fetch(b"a", &mut page)), Ok(None));
    assert!(rt; page == page_of(&[(b"c", b"")])?);
    assert_eq!(rt; told(database.delete(b"a")), Ok(false));
    assert_eq!(rt; told(database.delete(b"c")), Ok(true));
    assert_eq!(rt; told(database.fetch(b"c", &mut page)), Ok(None));
    assert!(rt; page == page_of(&[])?);
    assert_eq!(rt; told(database.fetch(b"b", &mut page)), Ok(Some((1020, 1))));
    assert!(rt; page == even_page()?, "the other page");
    Ok(())
}

// A page that is written has zeros between its offsets and its values, and no strays: this one keeps what it has.
#[test]
fn writes_nothing(rt: HostRuntime) -> Result<(), Fail> {
    let mut used = odd_page()?;
    used[500] = 7;
    let mut flat = flat_of(rt.alloc(), 0, 6)?;
    put(&mut flat, 0, &block_of(1))?;
    put(&mut flat, 5, &used)?;
    let mut database = Database::new(flat);
    let keys = [
        (b"e", "no pair of a page"),
        (b"z", "no page yet"),
        (b"d", "a stray pair"),
    ];
    for (key, what) in keys {
        assert_eq!(rt; told(database.delete(key)), Ok(false), "{what}");
    }
    let mut device = database.into_device();
    assert!(rt; block_at(&mut device, 5)? == used);
    Ok(())
}

#[test]
fn delete_refusals(rt: HostRuntime) -> Result<(), Fail> {
    let heap = rt.alloc();
    let mut none = Database::new(flat_of(heap, 0, 0)?);
    assert_eq!(rt; told(none.delete(b"")), Err((1, 0, 0)), "1 comes before 9");
    assert_eq!(rt; told(none.delete(b"a")), Err((9, 1, 0)));
    assert_eq!(rt; told(cut(heap)?.delete(b"a")), Err((9, 1, 5)));
    assert_eq!(rt; told(spoiled(heap)?.delete(b"a")), Err((6, 0, 5)));
    Ok(())
}
