// What a page holds, and its parts.
use crate::building::{page_of, told, worked_page};
use pages::{PairPage, Place, view};

#[test]
fn pairs(rt: HostRuntime) {
    let bytes = worked_page();
    let page = PairPage::read(&bytes);
    assert!(rt; page.is_good());
    assert_eq!(rt; page.count(), 2);
    assert_eq!(rt; page.pair(0), Some(((1023, 1), (1021, 2))));
    assert_eq!(rt; page.pair(1), Some(((1020, 1), (1020, 0))));
    assert_eq!(rt; page.pair(2), None);
    assert!(rt; page.bytes() == worked_page().as_slice());
}

#[test]
fn key_ends(rt: HostRuntime) {
    let bytes = worked_page();
    let page = PairPage::read(&bytes);
    assert_eq!(rt; page.key_end(0), 1024);
    assert_eq!(rt; page.key_end(1), 1021);
    assert_eq!(rt; page.key_end(2), 1020, "the end of the free middle");
    assert_eq!(rt; page.key_end(usize::MAX), 1020);
    assert_eq!(rt; page.number_of(b"b"), Some(1));
    assert_eq!(rt; page.number_of(b"12"), None, "a value is no key");
}

#[test]
fn finds(rt: HostRuntime) {
    let bytes = worked_page();
    let page = PairPage::read(&bytes);
    assert_eq!(rt; page.find(b"a"), Some((1021, 2)));
    assert_eq!(rt; page.find(b"b"), Some((1020, 0)));
    assert_eq!(rt; page.find(b"c"), None);
    assert_eq!(rt; page.find(b"ab"), None);
    assert_eq!(rt; page.find(b""), None, "the empty key");
    assert_eq!(rt; page.find(&bytes), None, "a key as long as the page");
}

// A page that is not good reads as the blank page.
#[test]
fn bad_page_is_blank(rt: HostRuntime) {
    let bytes = page_of(&[2, 1023, 5], b"a");
    let page = PairPage::read(&bytes);
    assert!(rt; !page.is_good());
    assert_eq!(rt; page.count(), 0);
    assert_eq!(rt; page.find(b"a"), None);
    assert!(rt; page.bytes() == [0; 1024].as_slice());
}

#[test]
fn views(rt: HostRuntime) {
    let page = worked_page();
    let cases: [(Place, &[u8]); 6] = [
        ((1023, 1), b"a"),
        ((1021, 2), b"12"),
        ((1020, 1), b"b"),
        ((1020, 0), b""),
        // nothing, at the end
        ((1024, 0), b""),
        // the whole page
        ((0, 1024), &page),
    ];
    for (place, part) in cases {
        assert_eq!(rt; view(&page, place), Ok(part), "{place:?}");
    }
}

#[test]
fn views_refused(rt: HostRuntime) {
    let page = worked_page();
    assert!(rt; view(&page, (1023, 1)).is_ok());
    assert_eq!(rt; told(view(&page, (1024, 1))), Err((4, 0, 0)));
    assert_eq!(rt; told(view(&page, (1023, 2))), Err((4, 0, 0)));
    assert_eq!(rt; told(view(&page, (65535, 65535))), Err((4, 0, 0)));
    assert_eq!(rt; told(view(&[0; 1000], (0, 1))), Err((3, 0, 0)));
    assert_eq!(rt;
        told(view(&[0; 1000], (1024, 1))),
        Err((3, 0, 0)),
        "3 comes before 4"
    );
}
