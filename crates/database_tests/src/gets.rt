// The records of two kinds that are stored as values, each got as its kind and as the other.
use crate::building::{MEMBER, SYMBOL, UNTOUCHED, cut, flat_of, page_of, put, spoiled, told};
use database::Database;
use devices::BLOCK;
use faults::Fault;
use flat::Flat;
use records::{LONGEST, Member, Record, Symbol};
use std::alloc::Global;
use std::test::Fail;

// The page of a symbol under the key s, and of a member under m.
fn records_page() -> Result<[u8; BLOCK], Fault> {
    let mut symbol = [0; LONGEST];
    let mut member = [0; LONGEST];
    let symbol_length = SYMBOL.encode(&mut symbol);
    let member_length = MEMBER.encode(&mut member);
    page_of(&[
        (b"s", &symbol[..symbol_length]),
        (b"m", &member[..member_length]),
    ])
}

// A database of this page alone.
fn recorded(heap: Global) -> Result<Database<Flat>, Fail> {
    let mut flat = flat_of(heap, 0, 5)?;
    put(&mut flat, 4, &records_page()?)?;
    Ok(Database::new(flat))
}

#[test]
fn gets(rt: HostRuntime) -> Result<(), Fail> {
    let mut database = recorded(rt.alloc())?;
    let mut page = UNTOUCHED;
    assert_eq!(rt; told(database.get(b"s", &mut page)), Ok(Some(SYMBOL)));
    assert_eq!(rt; told(database.get(b"m", &mut page)), Ok(Some(MEMBER)));
    assert!(rt; page == records_page()?);
    page = UNTOUCHED;
    assert_eq!(rt; told(database.get::<Symbol>(b"x", &mut page)), Ok(None));
    assert!(rt; page == records_page()?, "the home page of x");
    Ok(())
}

#[test]
fn other_kind(rt: HostRuntime) -> Result<(), Fail> {
    let mut database = recorded(rt.alloc())?;
    let mut page = UNTOUCHED;
    assert_eq!(rt;
        told(database.get::<Symbol>(b"m", &mut page)),
        Err((13, 0, 4))
    );
    assert_eq!(rt;
        told(database.get::<Member>(b"s", &mut page)),
        Err((13, 0, 4))
    );
    assert!(rt; page == UNTOUCHED);
    Ok(())
}

#[test]
fn get_input(rt: HostRuntime) -> Result<(), Fail> {
    let mut database = Database::new(flat_of(rt.alloc(), 0, 0)?);
    let mut short = [7; 1023];
    assert_eq!(rt;
        told(database.get::<Symbol>(b"", &mut short)),
        Err((1, 0, 0)),
        "1 comes before 3"
    );
    assert_eq!(rt;
        told(database.get::<Symbol>(b"s", &mut short)),
        Err((3, 0, 0)),
        "3 comes before 9"
    );
    assert!(rt; short == [7; 1023]);
    Ok(())
}

#[test]
fn get_page(rt: HostRuntime) -> Result<(), Fail> {
    let heap = rt.alloc();
    let mut page = UNTOUCHED;
    let past_limit = told(cut(heap)?.get::<Member>(b"a", &mut page));
    assert_eq!(rt; past_limit, Err((9, 1, 5)));
    let not_good = told(spoiled(heap)?.get::<Member>(b"a", &mut page));
    assert_eq!(rt; not_good, Err((6, 0, 5)));
    assert!(rt; page == UNTOUCHED);
    Ok(())
}
