// Records of two kinds that are put, and what a put is refused for.
use crate::building::{MEMBER, SYMBOL, UNTOUCHED, cut, flat_of, page_of, spoiled, told};
use database::Database;
use records::Symbol;
use std::test::Fail;

// Their bytes are those of the sample.
#[test]
fn puts(rt: HostRuntime) -> Result<(), Fail> {
    let mut database = Database::new(flat_of(rt.alloc(), 0, 5)?);
    let mut page = UNTOUCHED;
    assert_eq!(rt; told(database.put(b"s", &SYMBOL)), Ok(()));
    assert_eq!(rt; told(database.get(b"s", &mut page)), Ok(Some(SYMBOL)));
    assert!(rt; page == page_of(&[(b"s", b"\xf0\x4f\x00\x00\x01\x00\xf4\xff\xff\xff")])?);
    assert_eq!(rt; told(database.put(b"s", &MEMBER)), Ok(()), "in its place");
    assert_eq!(rt; told(database.get(b"s", &mut page)), Ok(Some(MEMBER)));
    assert!(rt; page == page_of(&[(b"s", b"\x28\x02\x00\x00\xa8\x01\x00\x00\x01")])?);
    assert_eq!(rt;
        told(database.get::<Symbol>(b"s", &mut page)),
        Err((13, 0, 4))
    );
    Ok(())
}

// A member is 9 bytes long, so that the key may have 999.
#[test]
fn put_input(rt: HostRuntime) -> Result<(), Fail> {
    let mut database = Database::new(flat_of(rt.alloc(), 0, 0)?);
    assert_eq!(rt; told(database.put(b"", &SYMBOL)), Err((1, 0, 0)));
    assert_eq!(rt;
        told(database.put(&[7; 1000], &MEMBER)),
        Err((2, 0, 0)),
        "2 comes before 9"
    );
    assert_eq!(rt; told(database.put(&[7; 999], &MEMBER)), Err((9, 1, 0)));
    Ok(())
}

#[test]
fn put_page(rt: HostRuntime) -> Result<(), Fail> {
    let heap = rt.alloc();
    assert_eq!(rt; told(cut(heap)?.put(b"a", &SYMBOL)), Err((9, 1, 5)));
    assert_eq!(rt; told(spoiled(heap)?.put(b"a", &SYMBOL)), Err((6, 0, 5)));
    Ok(())
}
