// Values of the two record kinds. Those that name a key are in the sample, packed by Perl.
use records::{LONGEST, Member, Record, Sort, Symbol};
use std::fmt::Debug;
use std::process::Abort;

// The record codes to these bytes, in front of the buffer's own, and they decode to it.
fn assert_code<R: Record + PartialEq + Debug + Drop>(rt: &impl Abort, record: R, bytes: &[u8]) {
    let mut buffer = [7; LONGEST];
    let length = record.encode(&mut buffer);
    assert_eq!(rt; &buffer[..length], bytes);
    assert!(rt; buffer[length..].iter().all(|byte| *byte == 7));
    assert_eq!(rt; R::decode(bytes), Some(record));
}

#[test]
fn symbols(rt: HostRuntime) {
    let cases = [
        // atexit
        ((0x10BC, 1, 0), [0xBC, 0x10, 0, 0, 1, 0, 0, 0, 0, 0]),
        // flash_unlock
        (
            (0x4FF0, 1, -12),
            [0xF0, 0x4F, 0, 0, 1, 0, 0xF4, 0xFF, 0xFF, 0xFF],
        ),
        // __stack_top
        (
            (0x2000_80B0, 0xFFF1, -2_147_483_637),
            [0xB0, 0x80, 0, 0x20, 0xF1, 0xFF, 0x0B, 0, 0, 0x80],
        ),
        (
            (u32::MAX, u16::MAX, i32::MAX),
            [0xFF, 0xFF, 0xFF, 0xFF, 0xFF, 0xFF, 0xFF, 0xFF, 0xFF, 0x7F],
        ),
        ((0, 0, i32::MIN), [0, 0, 0, 0, 0, 0, 0, 0, 0, 0x80]),
    ];
    for ((address, section, addend), bytes) in cases {
        let symbol = Symbol {
            address,
            section,
            addend,
        };
        assert_code(&rt, symbol, &bytes);
    }
}

#[test]
fn members(rt: HostRuntime) {
    let cases = [
        // crt0.o/, crti.o/ and crtn.o/
        ((68, 424, Sort::Object), [0x44, 0, 0, 0, 0xA8, 1, 0, 0, 0]),
        ((552, 424, Sort::Data), [0x28, 2, 0, 0, 0xA8, 1, 0, 0, 1]),
        ((1036, 424, Sort::Other), [0x0C, 4, 0, 0, 0xA8, 1, 0, 0, 2]),
        (
            (u32::MAX, 0, Sort::Other),
            [0xFF, 0xFF, 0xFF, 0xFF, 0, 0, 0, 0, 2],
        ),
    ];
    for ((offset, length, sort), bytes) in cases {
        let member = Member {
            offset,
            length,
            sort,
        };
        assert_code(&rt, member, &bytes);
    }
}

#[test]
fn no_codes(rt: HostRuntime) {
    let no_symbols: [&[u8]; 3] = [&[], &[0; 9], &[0; 11]];
    for bytes in no_symbols {
        assert_eq!(rt; Symbol::decode(bytes), None, "{bytes:?}");
    }
    let no_members: [&[u8]; 5] = [
        &[],
        &[0; 8],
        &[0; 10],
        &[0, 0, 0, 0, 0, 0, 0, 0, 3],
        &[0, 0, 0, 0, 0, 0, 0, 0, 255],
    ];
    for bytes in no_members {
        assert_eq!(rt; Member::decode(bytes), None, "{bytes:?}");
    }
}
