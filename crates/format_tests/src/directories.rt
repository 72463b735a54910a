// Where lookups end.
use directory::{Leaf, is_reachable, look_up};

fn leaf(index: u32, depth: u32, page: u32) -> Leaf {
    Leaf { index, depth, page }
}

#[test]
fn small_directories(rt: HostRuntime) {
    assert_eq!(rt; look_up(&[], 0), leaf(0, 0, 0));
    assert_eq!(rt; look_up(&[], u32::MAX), leaf(0, 0, 0));
    assert_eq!(rt; look_up(&[1], 96), leaf(1, 1, 0), "bit 0, an even hash");
    assert_eq!(rt; look_up(&[1], 97), leaf(2, 1, 1), "bit 0, an odd hash");
    assert_eq!(rt; look_up(&[5], 2), leaf(1, 1, 0), "bits 0 and 2, hash ..10");
    assert_eq!(rt; look_up(&[5], 97), leaf(5, 2, 1), "bits 0 and 2, hash ..01");
    assert_eq!(rt; look_up(&[5], 99), leaf(6, 2, 3), "bits 0 and 2, hash ..11");
}

#[test]
fn cut_directories(rt: HostRuntime) {
    assert_eq!(rt;
        look_up(&[255], 0),
        leaf(15, 4, 0),
        "bits 0 to 7, to the left"
    );
    assert_eq!(rt;
        look_up(&[255], u32::MAX),
        leaf(14, 3, 7),
        "bits 0 to 7, to the right"
    );
    assert_eq!(rt;
        look_up(&[255; 5000], 0),
        leaf(32767, 15, 0),
        "5,000 bytes, to the left"
    );
    assert_eq!(rt;
        look_up(&[255; 5000], u32::MAX),
        leaf(65534, 15, 32767),
        "5,000 bytes, to the right"
    );
}

#[test]
fn all_bits(rt: HostRuntime) {
    let dir = [255; 4096];
    let hashes = [0, 1, 97, 32767, 32768, 6_363_201, 807_794_786, u32::MAX];
    for hash in hashes {
        let end = look_up(&dir, hash);
        assert_eq!(rt; end.depth, 15, "{}", hash);
        assert_eq!(rt; end.page, hash % 32768, "{}", hash);
        assert!(rt; (32767..=65534).contains(&end.index), "{}", hash);
    }
}

// The last bit is spare.
#[test]
fn last_bit(rt: HostRuntime) {
    let mut dir = [0; 4096];
    dir[4095] = 128;
    assert_eq!(rt; look_up(&dir, 0), leaf(0, 0, 0));
    assert_eq!(rt; look_up(&dir, u32::MAX), leaf(0, 0, 0));
    assert!(rt; !is_reachable(&dir, 32767));
}

#[test]
fn reachable_pages(rt: HostRuntime) {
    for page in 0..64u32 {
        let want = [0, 1, 3].contains(&page);
        assert_eq!(rt; is_reachable(&[5], page), want, "{}", page);
    }
    assert!(rt; is_reachable(&[255; 4096], 32767));
    assert!(rt; !is_reachable(&[255; 4096], 32768), "no lookup ends there");
}

#[test]
fn homes(rt: HostRuntime) {
    let shallow = look_up(&[5], 1);
    for hash in 0..64u32 {
        assert_eq!(rt; shallow.is_home(hash), hash % 4 == 1, "{}", hash);
    }
    let deep = leaf(0, 32, 7);
    assert!(rt;
        deep.is_home(7) && !deep.is_home(7 + 32768),
        "all bits of the hash count"
    );
}
