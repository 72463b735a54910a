// Which bytes are a well-formed slotted image.
use devices::Device;
use slotted::Slotted;
use std::alloc::{AllocError, Global};
use std::test::Fail;

const RECORD: usize = 1030;

// A record with this mark and number, and a block of sevens.
fn push_record(image: &mut Vec<u8>, mark: &[u8], number: u32) -> Result<(), AllocError> {
    image.extend_from_slice(mark)?;
    image.extend_from_slice(&number.to_le_bytes())?;
    image.extend_from_slice(&[7; 1024])
}

fn image_of(heap: Global, records: &[(&[u8], u32)]) -> Result<Vec<u8>, AllocError> {
    let mut image = Vec::new(heap);
    for (mark, number) in records {
        push_record(&mut image, mark, *number)?;
    }
    Ok(image)
}

// Limit and claims left of an image.
fn sizes(heap: Global, image: Vec<u8>) -> Option<(u32, u32)> {
    let device = Slotted::open(heap, image).ok()?;
    Some((device.limit(), device.left()))
}

#[test]
fn well_formed(rt: HostRuntime) -> Result<(), Fail> {
    let heap = rt.alloc();
    assert_eq!(rt;
        sizes(heap, Vec::new(heap)),
        Some((65_544, 0)),
        "no records"
    );
    let free = image_of(heap, &[(b"\0\0", 9), (b"\0\0", 9)])?;
    assert_eq!(rt;
        sizes(heap, free),
        Some((65_544, 2)),
        "free records may have any number"
    );
    let used = image_of(heap, &[(b"SD", 65_543), (b"SD", 0), (b"\0\0", 0)])?;
    assert_eq!(rt;
        sizes(heap, used),
        Some((65_544, 1)),
        "the highest number and the lowest"
    );
    Ok(())
}

#[test]
fn not_well_formed(rt: HostRuntime) -> Result<(), Fail> {
    let heap = rt.alloc();
    let cases: [(&[(&[u8], u32)], &str); 5] = [
        (&[(b"DS", 1)], "a bad mark"),
        (&[(b"S\0", 1)], "half a mark"),
        (&[(b"\0\0", 1), (b"SD", 2)], "used after free"),
        (&[(b"SD", 1), (b"SD", 1)], "a number twice"),
        (&[(b"SD", 65_544)], "a number that is too high"),
    ];
    for (records, name) in cases {
        let image = image_of(heap, records)?;
        assert_eq!(rt; sizes(heap, image), Some((0, 0)), "{}", name);
    }
    Ok(())
}

#[test]
fn bad_lengths(rt: HostRuntime) -> Result<(), Fail> {
    let heap = rt.alloc();
    let cases: [usize; 4] = [1, RECORD - 1, RECORD + 1, 65_545 * RECORD];
    for len in cases {
        let image = vec![in heap; 0; len]?;
        assert_eq!(rt; sizes(heap, image), Some((0, 0)), "{len} bytes");
    }
    Ok(())
}
