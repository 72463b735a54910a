// Where the lookup of a hash on a device ends.
use crate::building::{UNTOUCHED, flat_of, odd_page, told, write_split};
use directory::Leaf;
use lookup::{look_up, read_home};
use std::test::Fail;

#[test]
fn lookups(rt: HostRuntime) -> Result<(), Fail> {
    let heap = rt.alloc();
    let mut block = UNTOUCHED;
    let first = Leaf {
        index: 0,
        depth: 0,
        page: 0,
    };
    let last = Leaf {
        index: 49_919,
        depth: 15,
        page: 97,
    };
    let clear = told(look_up(&mut flat_of(heap, 0, 1)?, 97, &mut block));
    assert_eq!(rt; clear, Ok(first));
    let set = told(look_up(&mut flat_of(heap, 255, 4)?, 97, &mut block));
    assert_eq!(rt; set, Ok(last));
    Ok(())
}

#[test]
fn home_read(rt: HostRuntime) -> Result<(), Fail> {
    let mut flat = flat_of(rt.alloc(), 0, 6)?;
    write_split(&mut flat)?;
    let mut block = UNTOUCHED;
    let leaf = Leaf {
        index: 2,
        depth: 1,
        page: 1,
    };
    assert_eq!(rt; told(read_home(&mut flat, 97, &mut block)), Ok(leaf));
    assert!(rt; block == odd_page()?);
    Ok(())
}
