// What a fetch is refused for, and that the caller's buffer is left alone. None of these devices fails, so that nothing is refused 12.
use crate::building::{UNTOUCHED, cut, flat_of, spoiled, told};
use database::Database;
use std::test::Fail;

#[test]
fn empty_key(rt: HostRuntime) -> Result<(), Fail> {
    let mut database = Database::new(flat_of(rt.alloc(), 0, 0)?);
    let mut page = UNTOUCHED;
    assert_eq!(rt;
        told(database.fetch(b"", &mut page)),
        Err((1, 0, 0)),
        "1 comes before 9"
    );
    assert!(rt; page == UNTOUCHED);
    let mut short = [7; 1023];
    assert_eq!(rt;
        told(database.fetch(b"", &mut short)),
        Err((1, 0, 0)),
        "1 comes before 3"
    );
    assert!(rt; short == [7; 1023]);
    Ok(())
}

#[test]
fn buffers(rt: HostRuntime) -> Result<(), Fail> {
    let mut database = Database::new(flat_of(rt.alloc(), 0, 0)?);
    let mut short = [7; 1023];
    assert_eq!(rt;
        told(database.fetch(b"a", &mut short)),
        Err((3, 0, 0)),
        "3 comes before 9"
    );
    assert!(rt; short == [7; 1023]);
    let mut long = [7; 1025];
    assert_eq!(rt; told(database.fetch(b"a", &mut long)), Err((3, 0, 0)));
    assert!(rt; long == [7; 1025]);
    Ok(())
}

// The lookup of a reads directory blocks 0, 1 and 3 where every bit is set.
#[test]
fn directory_past_the_limit(rt: HostRuntime) -> Result<(), Fail> {
    let heap = rt.alloc();
    let cases = [(0, 0), (1, 1), (2, 3), (3, 3), (4, 101), (101, 101)];
    for (blocks, refused) in cases {
        let mut database = Database::new(flat_of(heap, 255, blocks)?);
        let mut page = UNTOUCHED;
        assert_eq!(rt;
            told(database.fetch(b"a", &mut page)),
            Err((9, 1, refused)),
            "{blocks} blocks"
        );
        assert!(rt; page == UNTOUCHED, "{blocks} blocks");
    }
    Ok(())
}

#[test]
fn home_past_the_limit(rt: HostRuntime) -> Result<(), Fail> {
    let mut database = cut(rt.alloc())?;
    let mut page = UNTOUCHED;
    assert_eq!(rt; told(database.fetch(b"a", &mut page)), Err((9, 1, 5)));
    assert!(rt; page == UNTOUCHED);
    assert_eq!(rt; told(database.fetch(b"b", &mut page)), Ok(Some((1020, 1))));
    Ok(())
}

#[test]
fn home_not_good(rt: HostRuntime) -> Result<(), Fail> {
    let mut database = spoiled(rt.alloc())?;
    let mut page = UNTOUCHED;
    assert_eq!(rt; told(database.fetch(b"a", &mut page)), Err((6, 0, 5)));
    assert!(rt; page == UNTOUCHED);
    assert_eq!(rt; told(database.fetch(b"b", &mut page)), Ok(Some((1020, 1))));
    Ok(())
}
