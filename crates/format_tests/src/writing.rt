// The edits of a page. Buffers start out full of sevens, so that what is written and what is left alone both show.
use crate::building::{page_of, told, worked_page};
use page_edits::{append, fits, keep, keep_others, replace, without};
use pages::PairPage;

#[test]
fn appends(rt: HostRuntime) {
    let mut one = [7; 1024];
    assert_eq!(rt;
        told(append(&PairPage::read(&[0; 1024]), b"a", b"12", &mut one)),
        Ok(true)
    );
    assert!(rt; one == page_of(&[2, 1023, 1021], b"12a"));
    let mut two = [7; 1024];
    assert_eq!(rt;
        told(append(&PairPage::read(&one), b"b", b"", &mut two)),
        Ok(true)
    );
    assert!(rt; two == worked_page());
}

// Beside a pair of 1,008 bytes there is room for one of 6.
#[test]
fn room(rt: HostRuntime) {
    let page = page_of(&[2, 1016, 16], b"a name..");
    let mut out = [7; 1024];
    assert_eq!(rt;
        told(append(&PairPage::read(&page), b"b", b"123456", &mut out)),
        Ok(false)
    );
    assert_eq!(rt;
        told(append(&PairPage::read(&page), b"bcdefgh", b"", &mut out)),
        Ok(false)
    );
    assert!(rt; out == [7; 1024], "the buffer is left alone");
    assert_eq!(rt;
        told(append(&PairPage::read(&page), b"b", b"12345", &mut out)),
        Ok(true)
    );
    let page = PairPage::read(&out);
    assert_eq!(rt; page.pair(0), Some(((1016, 8), (16, 1000))));
    assert_eq!(rt; page.pair(1), Some(((15, 1), (10, 5))));
}

#[test]
fn fitting(rt: HostRuntime) {
    let bytes = page_of(&[2, 1016, 16], b"a name..");
    let page = PairPage::read(&bytes);
    assert!(rt; fits(&page, b"b", b"12345"));
    assert!(rt; !fits(&page, b"b", b"123456"));
    assert!(rt; !fits(&page, b"", b"12345"), "an empty key");
    assert!(rt;
        !fits(&page, b"a name..", b""),
        "a key that is there, and no room"
    );
}

#[test]
fn no_append(rt: HostRuntime) {
    let page = worked_page();
    let mut out = [7; 1024];
    assert_eq!(rt;
        told(append(&PairPage::read(&page), b"", b"x", &mut out)),
        Ok(false),
        "an empty key"
    );
    assert_eq!(rt;
        told(append(&PairPage::read(&page), b"b", b"x", &mut out)),
        Ok(false),
        "a key that is there"
    );
    assert_eq!(rt;
        told(append(&PairPage::read(&page), &page, b"", &mut out)),
        Ok(false),
        "a long key"
    );
    assert_eq!(rt;
        told(append(&PairPage::read(&page), b"c", &page, &mut out)),
        Ok(false),
        "a long value"
    );
    assert!(rt; out == [7; 1024], "the buffer is left alone");
}

#[test]
fn short_buffers(rt: HostRuntime) {
    let page = worked_page();
    let mut out = [7; 1023];
    assert_eq!(rt;
        told(append(&PairPage::read(&page), b"c", b"", &mut out)),
        Err((3, 0, 0))
    );
    assert_eq!(rt;
        told(without(&PairPage::read(&page), b"a", &mut out)),
        Err((3, 0, 0))
    );
    assert_eq!(rt;
        told(keep(&PairPage::read(&page), 1, 0, &mut out)),
        Err((3, 0, 0))
    );
    assert_eq!(rt;
        told(keep_others(&PairPage::read(&page), b"a", 1, 0, &mut out)),
        Err((3, 0, 0))
    );
    assert_eq!(rt;
        told(replace(&PairPage::read(&page), b"a", b"", 1, 0, &mut out)),
        Err((3, 0, 0))
    );
    assert!(rt; out == [7; 1023], "the buffer is left alone");
}

#[test]
fn removals(rt: HostRuntime) {
    let page = page_of(&[4, 1023, 1021, 1020, 1020, 0xABCD], b"b12a");
    let mut out = [7; 1024];
    assert_eq!(rt;
        told(without(&PairPage::read(&page), b"a", &mut out)),
        Ok(true)
    );
    assert!(rt; out == page_of(&[2, 1023, 1023], b"b"), "b is left");
    assert_eq!(rt;
        told(without(&PairPage::read(&page), b"b", &mut out)),
        Ok(true)
    );
    assert!(rt; out == page_of(&[2, 1023, 1021], b"12a"), "a is left");
    assert_eq!(rt;
        told(without(&PairPage::read(&page), b"c", &mut out)),
        Ok(false)
    );
    assert!(rt;
        out == worked_page(),
        "all is left, with zeros in the free middle"
    );
}

// The page of the pairs (a, 1), (b, empty), (c, 33) and (d, 4). The hashes of the keys are 97 to 100.
fn four_pairs() -> [u8; 1024] {
    page_of(
        &[8, 1023, 1022, 1021, 1021, 1020, 1018, 1017, 1016],
        b"4d33cb1a",
    )
}

#[test]
fn halves(rt: HostRuntime) {
    let page = four_pairs();
    let mut out = [7; 1024];
    assert_eq!(rt; told(keep(&PairPage::read(&page), 1, 0, &mut out)), Ok(()));
    assert!(rt;
        out == page_of(&[4, 1023, 1023, 1022, 1021], b"4db"),
        "even"
    );
    assert_eq!(rt; told(keep(&PairPage::read(&page), 1, 1, &mut out)), Ok(()));
    assert!(rt;
        out == page_of(&[4, 1023, 1022, 1021, 1019], b"33c1a"),
        "odd"
    );
}

#[test]
fn keeps(rt: HostRuntime) {
    let page = worked_page();
    let mut out = [7; 1024];
    assert_eq!(rt; told(keep(&PairPage::read(&page), 0, 0, &mut out)), Ok(()));
    assert!(rt; out == page, "all");
    assert_eq!(rt; told(keep(&PairPage::read(&page), 1, 2, &mut out)), Ok(()));
    assert!(rt; out == [0; 1024], "none");
    assert_eq!(rt;
        told(keep(&PairPage::read(&page), 32, 97, &mut out)),
        Ok(())
    );
    assert!(rt; out == page_of(&[2, 1023, 1021], b"12a"), "only a");
}

#[test]
fn others(rt: HostRuntime) {
    let bytes = four_pairs();
    let page = PairPage::read(&bytes);
    let mut out = [7; 1024];
    assert_eq!(rt; told(keep_others(&page, b"b", 0, 0, &mut out)), Ok(()));
    assert!(rt;
        out == page_of(&[6, 1023, 1022, 1021, 1019, 1018, 1017], b"4d33c1a"),
        "all but b"
    );
    assert_eq!(rt; told(keep_others(&page, b"a", 1, 1, &mut out)), Ok(()));
    assert!(rt; out == page_of(&[2, 1023, 1021], b"33c"), "odd, but a");
    assert_eq!(rt; told(keep_others(&page, b"e", 1, 0, &mut out)), Ok(()));
    assert!(rt;
        out == page_of(&[4, 1023, 1023, 1022, 1021], b"4db"),
        "even, and no e among them"
    );
    assert_eq!(rt; told(keep_others(&page, b"a", 0, 1, &mut out)), Ok(()));
    assert!(rt; out == [0; 1024], "no bits are never 1");
}

#[test]
fn replaced_pairs(rt: HostRuntime) {
    let bytes = four_pairs();
    let page = PairPage::read(&bytes);
    let mut out = [7; 1024];
    assert_eq!(rt; told(replace(&page, b"a", b"22", 0, 0, &mut out)), Ok(true));
    assert!(rt;
        out == page_of(
            &[8, 1023, 1023, 1022, 1020, 1019, 1018, 1017, 1015],
            b"22a4d33cb"
        ),
        "a goes to the end"
    );
    assert_eq!(rt; told(replace(&page, b"a", b"22", 1, 1, &mut out)), Ok(true));
    assert!(rt;
        out == page_of(&[4, 1023, 1021, 1020, 1018], b"22a33c"),
        "the strays b and d are gone"
    );
    assert_eq!(rt; told(replace(&page, b"e", b"", 2, 1, &mut out)), Ok(true));
    assert!(rt;
        out == page_of(&[4, 1023, 1022, 1021, 1021], b"e1a"),
        "a new key, beside a"
    );
}

// The page of one pair of 1,018 bytes is full.
#[test]
fn room_of_others(rt: HostRuntime) {
    let bytes = page_of(&[2, 1016, 16], b"a name..");
    let page = PairPage::read(&bytes);
    let mut out = [7; 1024];
    assert_eq!(rt;
        told(replace(&page, b"b", b"123456", 0, 0, &mut out)),
        Ok(false),
        "beside the other"
    );
    assert_eq!(rt;
        told(replace(&page, b"a name..", &[9; 1011], 0, 0, &mut out)),
        Ok(false),
        "in its place"
    );
    assert_eq!(rt;
        told(replace(&page, b"", b"1", 0, 0, &mut out)),
        Ok(false),
        "an empty key"
    );
    assert!(rt; out == [7; 1024], "the buffer is left alone");
    assert_eq!(rt;
        told(replace(&page, b"a name..", &[9; 1010], 0, 0, &mut out)),
        Ok(true)
    );
    let full = PairPage::read(&out);
    assert_eq!(rt; full.pair(0), Some(((1016, 8), (6, 1010))));
    assert_eq!(rt; full.count(), 1);
}
