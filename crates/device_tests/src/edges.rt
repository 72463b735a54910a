// The numbers at the edges of the two bottom devices.
use crate::answers::told;
use devices::Device;
use flat::Flat;
use slotted::Slotted;
use std::test::Fail;

#[test]
fn flat_edges(rt: HostRuntime) -> Result<(), Fail> {
    let heap = rt.alloc();
    let mut device = Flat::new(vec![in heap; 5; 3 * 1024 + 100]?);
    let mut buffer = [0u8; 1024];
    assert_eq!(rt; device.limit(), 3);
    assert_eq!(rt; device.left(), 0);
    assert_eq!(rt; told(device.read(0, &mut buffer)), Ok(()));
    assert_eq!(rt; buffer[1023], 5);
    assert_eq!(rt; told(device.read(2, &mut buffer)), Ok(()));
    assert_eq!(rt;
        told(device.read(3, &mut buffer)),
        Err((9, 1, 3)),
        "the part block"
    );
    assert_eq!(rt;
        told(device.write(u32::MAX, &buffer)),
        Err((9, 1, u32::MAX))
    );
    assert_eq!(rt; told(device.claim(2)), Ok(()));
    assert_eq!(rt; told(device.claim(3)), Err((9, 1, 3)));
    Ok(())
}

#[test]
fn flat_keeps_the_rest(rt: HostRuntime) -> Result<(), Fail> {
    let heap = rt.alloc();
    let mut device = Flat::new(vec![in heap; 5; 2 * 1024 + 1]?);
    assert_eq!(rt; told(device.write(1, &[9u8; 1024])), Ok(()));
    assert_eq!(rt; told(device.flush()), Ok(()));
    let bytes = device.into_bytes();
    assert_eq!(rt; bytes.get(1023).copied(), Some(5));
    assert_eq!(rt; bytes.get(1024).copied(), Some(9));
    assert_eq!(rt; bytes.get(2047).copied(), Some(9));
    assert_eq!(rt; bytes.get(2048).copied(), Some(5), "the part block");
    Ok(())
}

#[test]
fn slotted_edges(rt: HostRuntime) -> Result<(), Fail> {
    let heap = rt.alloc();
    let mut device = Slotted::open(heap, vec![in heap; 0; 2 * 1030]?)?;
    let mut buffer = [1u8; 1024];
    assert_eq!(rt; told(device.write(65_543, &buffer)), Err((11, 1, 65_543)));
    assert_eq!(rt; told(device.claim(65_543)), Ok(()));
    assert_eq!(rt; told(device.write(65_543, &buffer)), Ok(()));
    assert_eq!(rt; told(device.claim(0)), Ok(()));
    assert_eq!(rt; told(device.claim(65_543)), Ok(()), "held already");
    assert_eq!(rt; told(device.claim(1)), Err((10, 1, 1)));
    assert_eq!(rt; told(device.claim(65_544)), Err((9, 1, 65_544)));
    assert_eq!(rt;
        told(device.read(u32::MAX, &mut buffer)),
        Err((9, 1, u32::MAX))
    );
    assert_eq!(rt; told(device.read(1, &mut buffer)), Ok(()));
    assert_eq!(rt; buffer[0], 0, "not held: zeros");
    Ok(())
}

#[test]
fn slotted_records(rt: HostRuntime) -> Result<(), Fail> {
    let heap = rt.alloc();
    let mut device = Slotted::open(heap, vec![in heap; 0; 2 * 1030]?)?;
    assert_eq!(rt; told(device.claim(258)), Ok(()));
    assert_eq!(rt; told(device.write(258, &[3u8; 1024])), Ok(()));
    let bytes = device.into_bytes();
    let record = bytes.get(0..7).ok_or("a record")?;
    assert!(rt;
        record == [0x53, 0x44, 2, 1, 0, 0, 3].as_slice(),
        "mark, number, block"
    );
    assert_eq!(rt; bytes.get(1030).copied(), Some(0), "the second is free");
    Ok(())
}

#[test]
fn buffers(rt: HostRuntime) -> Result<(), Fail> {
    let heap = rt.alloc();
    let mut device = Flat::new(vec![in heap; 5; 1024]?);
    let mut short = [7u8; 1023];
    assert_eq!(rt;
        told(device.read(9, &mut short)),
        Err((3, 1, 0)),
        "3 comes before 9"
    );
    assert_eq!(rt; short[0], 7);
    assert_eq!(rt; told(device.write(9, &short)), Err((3, 1, 0)));
    assert_eq!(rt; told(device.write(0, &[0u8; 1025])), Err((3, 1, 0)));
    Ok(())
}
