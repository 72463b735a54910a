// Which pages are good.
use crate::building::page_of;
use pages::PairPage;

fn is_good(numbers: &[u16], tail: &[u8]) -> bool {
    PairPage::read(&page_of(numbers, tail)).is_good()
}

#[test]
fn good_pages(rt: HostRuntime) {
    assert!(rt; is_good(&[], b""), "blank");
    assert!(rt;
        is_good(&[2, 1023, 6], b"a"),
        "the longest value of a key of one byte"
    );
    assert!(rt; is_good(&[2, 1023, 1023], b"a"), "an empty value");
    assert!(rt; is_good(&[2, 6, 6], b""), "a key of 1,018 bytes");
    assert!(rt;
        is_good(&[2, 1023, 1020, 0xABCD, 511], b"a"),
        "bytes in the free middle"
    );
    assert!(rt;
        is_good(&[6, 1023, 1023, 1022, 1022, 1021, 1021], b"cba"),
        "three keys"
    );
}

#[test]
fn bad_counts(rt: HostRuntime) {
    let cases: [u16; 6] = [1, 3, 511, 512, 510, 65535];
    for n in cases {
        assert!(rt; !is_good(&[n], b""), "n = {n}, then zeros");
    }
    assert!(rt; !is_good(&[1, 1023], b"a"), "one offset");
    assert!(rt; !is_good(&[3, 1023, 1020, 1019], b"a"), "three offsets");
}

#[test]
fn bad_offsets(rt: HostRuntime) {
    let cases: [[u16; 2]; 9] = [
        [1023, 5],
        [1000, 1001],
        [0, 0],
        [1023, 0],
        [65535, 6],
        [1023, 65535],
        [1024, 1020],
        [1025, 1020],
        [5, 5],
    ];
    for [key, value] in cases {
        assert!(rt;
            !is_good(&[2, key, value], b"a"),
            "offsets {key} and {value}"
        );
    }
    assert!(rt;
        !is_good(&[4, 1023, 1020, 1020, 1020], b"a"),
        "an empty second key"
    );
    assert!(rt;
        !is_good(&[4, 1023, 1020, 1021, 1019], b"a"),
        "the second key over the first value"
    );
}

#[test]
fn keys_twice(rt: HostRuntime) {
    assert!(rt; is_good(&[4, 1023, 1023, 1022, 1022], b"ba"), "a, b");
    assert!(rt; !is_good(&[4, 1023, 1023, 1022, 1022], b"aa"), "a, a");
    assert!(rt;
        !is_good(&[6, 1023, 1023, 1022, 1022, 1021, 1021], b"aba"),
        "a, b, a"
    );
    assert!(rt; is_good(&[4, 1023, 1023, 1021, 1021], b"aaa"), "a, aa");
}

// A page of so many pairs: keys of one byte, each another one, and empty values. Over the numbers of the pairs: of 205 the last
// key lies over an offset, so that the order of the writes counts.
fn short_pairs(many: u8) -> [u8; 1024] {
    let mut page = page_of(&[2 * u16::from(many)], b"");
    for k in 0..many {
        let key = 1023 - u16::from(k);
        let [low, high] = key.to_le_bytes();
        let at = 4 * usize::from(k) + 2;
        page[at..at + 4].copy_from_slice(&[low, high, low, high]);
        page[usize::from(key)] = k;
    }
    page
}

#[test]
fn fullest_page(rt: HostRuntime) {
    let full = short_pairs(204);
    assert!(rt; PairPage::read(&full).is_good(), "204 pairs");
    assert_eq!(rt; PairPage::read(&full).count(), 204);
    let over = short_pairs(205);
    assert!(rt; !PairPage::read(&over).is_good(), "205 pairs");
    assert_eq!(rt; PairPage::read(&over).count(), 0);
}

#[test]
fn page_lengths(rt: HostRuntime) {
    assert!(rt; !PairPage::read(&[]).is_good(), "no byte");
    assert!(rt; !PairPage::read(&[0; 1023]).is_good(), "1,023 bytes");
    assert!(rt; PairPage::read(&[0; 1024]).is_good(), "1,024 bytes");
    assert!(rt; !PairPage::read(&[0; 1025]).is_good(), "1,025 bytes");
}
