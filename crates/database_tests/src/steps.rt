// The pairs that a walk shows, its end, and what a step is refused for.
use crate::building::{
    UNTOUCHED, cut, even_page, flat_of, odd_page, page_of, put, split, spoiled, told,
};
use database::{Database, Stepped};
use devices::BLOCK;
use faults::Fault;
use slotted::Slotted;
use std::alloc::Global;
use std::test::Fail;

// The strays, pair 0 of page 0 and pair 1 of page 1, are passed over.
#[test]
fn walks(rt: HostRuntime) -> Result<(), Fail> {
    let mut database = split(rt.alloc())?;
    let mut page = UNTOUCHED;
    assert_eq!(rt;
        told(database.step((0, 0), &mut page)),
        Ok(Stepped::Pair(((1021, 1), (1020, 1), (0, 2))))
    );
    assert!(rt; page == even_page()?);
    assert_eq!(rt;
        told(database.step((0, 2), &mut page)),
        Ok(Stepped::Pair(((1023, 1), (1021, 2), (1, 1))))
    );
    assert!(rt; page == odd_page()?);
    assert_eq!(rt;
        told(database.step((1, 1), &mut page)),
        Ok(Stepped::Pair(((1018, 1), (1018, 0), (1, 3))))
    );
    Ok(())
}

#[test]
fn past_the_pairs(rt: HostRuntime) -> Result<(), Fail> {
    let mut database = split(rt.alloc())?;
    let mut page = UNTOUCHED;
    assert_eq!(rt;
        told(database.step((0, u32::MAX), &mut page)),
        Ok(Stepped::Pair(((1023, 1), (1021, 2), (1, 1))))
    );
    assert!(rt; page == odd_page()?);
    page = UNTOUCHED;
    assert_eq!(rt; told(database.step((1, 3), &mut page)), Ok(Stepped::End));
    assert!(rt; page == odd_page()?, "the last page that was read");
    Ok(())
}

// No lookup ends at the last pages, and there are none from 32,768 on.
#[test]
fn ends_unread(rt: HostRuntime) -> Result<(), Fail> {
    let mut database = split(rt.alloc())?;
    let mut page = UNTOUCHED;
    let positions = [(32_760, 0), (32_768, 0), (u32::MAX, u32::MAX)];
    for at in positions {
        assert_eq!(rt;
            told(database.step(at, &mut page)),
            Ok(Stepped::End),
            "{at:?}"
        );
    }
    assert!(rt; page == UNTOUCHED);
    Ok(())
}

// Every bit is set, and page 32,767 has a pair at home there: the hash of rbo is 948,240,383.
fn last_page() -> Result<[u8; BLOCK], Fault> {
    page_of(&[(b"a", b"3"), (b"rbo", b"12")])
}

fn full(heap: Global) -> Result<Database<Slotted>, Fail> {
    let mut slotted = Slotted::open(heap, vec![in heap; 0; 5 * 1030]?)?;
    for n in 0..4u32 {
        put(&mut slotted, n, &[255; BLOCK])?;
    }
    put(&mut slotted, 4 + 32_767, &last_page()?)?;
    Ok(Database::new(slotted))
}

#[test]
fn walks_at_the_last_depth(rt: HostRuntime) -> Result<(), Fail> {
    let mut database = full(rt.alloc())?;
    let mut page = UNTOUCHED;
    assert_eq!(rt;
        told(database.step((32_766, 0), &mut page)),
        Ok(Stepped::Pair(((1019, 3), (1017, 2), (32_767, 2))))
    );
    assert!(rt; page == last_page()?);
    page = UNTOUCHED;
    assert_eq!(rt;
        told(database.step((32_767, 2), &mut page)),
        Ok(Stepped::End)
    );
    assert!(rt; page == last_page()?);
    Ok(())
}

#[test]
fn step_buffers(rt: HostRuntime) -> Result<(), Fail> {
    let mut database = Database::new(flat_of(rt.alloc(), 0, 0)?);
    let mut short = [7; 1023];
    assert_eq!(rt;
        told(database.step((0, 0), &mut short)),
        Err((3, 0, 0)),
        "3 comes before 9"
    );
    assert!(rt; short == [7; 1023]);
    let mut long = [7; 1025];
    assert_eq!(rt;
        told(database.step((32_768, 0), &mut long)),
        Err((3, 0, 0)),
        "and before the end"
    );
    assert!(rt; long == [7; 1025]);
    Ok(())
}

#[test]
fn no_directory(rt: HostRuntime) -> Result<(), Fail> {
    let mut database = Database::new(flat_of(rt.alloc(), 0, 0)?);
    let mut page = UNTOUCHED;
    assert_eq!(rt; told(database.step((0, 0), &mut page)), Err((9, 1, 0)));
    assert_eq!(rt;
        told(database.step((32_767, 0), &mut page)),
        Err((9, 1, 0)),
        "the last page is looked up"
    );
    assert!(rt; page == UNTOUCHED);
    Ok(())
}

#[test]
fn later_pages(rt: HostRuntime) -> Result<(), Fail> {
    let heap = rt.alloc();
    let mut page = UNTOUCHED;
    let past_limit = told(cut(heap)?.step((0, 2), &mut page));
    assert_eq!(rt; past_limit, Err((9, 1, 5)));
    let not_good = told(spoiled(heap)?.step((0, 2), &mut page));
    assert_eq!(rt; not_good, Err((6, 0, 5)));
    assert!(rt; page == UNTOUCHED, "page 0 was read, and is not shown");
    Ok(())
}
