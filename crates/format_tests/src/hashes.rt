use keys::hash_of;

#[test]
fn hashes(rt: HostRuntime) {
    assert_eq!(rt; hash_of(b""), 0);
    assert_eq!(rt; hash_of(b"a"), 97);
    assert_eq!(rt; hash_of(b"ab"), 6_363_201);
    assert_eq!(rt; hash_of(b"abc"), 807_794_786);
    assert_eq!(rt; hash_of(&[0x80]), 128);
}
