// Layers over a bottom device, and over each other.
use crate::answers::told;
use cache::Cache;
use devices::Device;
use faults::Fault;
use flat::Flat;
use quota::Quota;
use slotted::Slotted;
use std::test::Fail;
use window::Window;

// What byte 0 of a block is.
fn first_byte<D: Device>(device: &mut D, n: u32) -> Result<u8, Fault> {
    let mut buffer = [0u8; 1024];
    device.read(n, &mut buffer)?;
    Ok(buffer[0])
}

#[test]
fn quota_refuses(rt: HostRuntime) -> Result<(), Fail> {
    let heap = rt.alloc();
    let bottom = Slotted::open(heap, vec![in heap; 0; 3 * 1030]?)?;
    let mut quota = Quota::new(bottom, 1);
    assert_eq!(rt; quota.left(), 1);
    assert_eq!(rt; told(quota.claim(4)), Ok(()));
    assert_eq!(rt; told(quota.claim(4)), Ok(()), "held already");
    assert_eq!(rt; told(quota.claim(5)), Err((10, 3, 5)));
    assert_eq!(rt; told(quota.claim(65_544)), Err((9, 3, 65_544)));
    assert_eq!(rt; told(quota.write(5, &[0u8; 1024])), Err((11, 3, 5)));
    Ok(())
}

#[test]
fn quota_passes_ten_up(rt: HostRuntime) -> Result<(), Fail> {
    let heap = rt.alloc();
    let bottom = Slotted::open(heap, vec![in heap; 0; 1030]?)?;
    let mut stack = Window::new(Quota::new(bottom, 9), 100, 10);
    assert_eq!(rt; told(stack.claim(3)), Ok(()));
    assert_eq!(rt;
        told(stack.claim(4)),
        Err((10, 1, 104)),
        "by the bottom, with its number"
    );
    Ok(())
}

#[test]
fn window_shifts(rt: HostRuntime) -> Result<(), Fail> {
    let heap = rt.alloc();
    let mut flat = Flat::new(vec![in heap; 0; 4 * 1024]?);
    assert_eq!(rt; told(flat.write(2, &[6u8; 1024])), Ok(()));
    let mut window = Window::new(&mut flat, 1, 9);
    assert_eq!(rt; window.limit(), 3);
    assert_eq!(rt; first_byte(&mut window, 1), Ok(6));
    assert_eq!(rt; told(window.write(3, &[1u8; 1024])), Err((9, 4, 3)));
    assert_eq!(rt; Window::new(&mut flat, 5, 9).limit(), 0, "past the end");
    Ok(())
}

#[test]
fn cache_holds_back(rt: HostRuntime) -> Result<(), Fail> {
    let heap = rt.alloc();
    let mut flat = Flat::new(vec![in heap; 0; 9 * 1024]?);
    let mut cache = Cache::new(&mut flat);
    for n in 0..8u32 {
        assert_eq!(rt; told(cache.write(n, &[1u8; 1024])), Ok(()));
    }
    assert_eq!(rt; first_byte(&mut cache, 0), Ok(1));
    assert_eq!(rt;
        told(cache.write(8, &[2u8; 1024])),
        Ok(()),
        "the oldest leaves"
    );
    drop(cache);
    assert_eq!(rt; first_byte(&mut flat, 0), Ok(1));
    assert_eq!(rt;
        first_byte(&mut flat, 1),
        Ok(0),
        "the others were held back"
    );
    Ok(())
}

#[test]
fn cache_flushes(rt: HostRuntime) -> Result<(), Fail> {
    let heap = rt.alloc();
    let mut flat = Flat::new(vec![in heap; 0; 2 * 1024]?);
    let mut cache = Cache::new(&mut flat);
    assert_eq!(rt; told(cache.write(1, &[1u8; 1024])), Ok(()));
    assert_eq!(rt; told(cache.write(1, &[2u8; 1024])), Ok(()));
    assert_eq!(rt; told(cache.write(2, &[2u8; 1024])), Err((9, 2, 2)));
    assert_eq!(rt; told(cache.flush()), Ok(()));
    drop(cache);
    assert_eq!(rt; first_byte(&mut flat, 1), Ok(2));
    Ok(())
}
