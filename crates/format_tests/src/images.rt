// Two files together: bit 0 of the directory is set, so that even hashes are at home on page 0 and odd ones on page 1.
use crate::building::{Numbers, page_of, told};
use database::{Database, Position, Stepped};
use flat::Flat;
use image::{joined, joined_within, reachable_from};
use pages::view;
use std::alloc::{AllocError, Global};
use std::test::Fail;

// Page 0 has the stray pair (a, 3) and the pair (b, 4); page 1 has (a, 12), the stray (d, 5) and (c, empty).
fn pages() -> [u8; 3072] {
    join(
        &page_of(&[4, 1023, 1022, 1021, 1020], b"4b3a"),
        &page_of(&[6, 1023, 1021, 1020, 1019, 1018, 1018], b"c5d12a"),
    )
}

// Two pages, one after the other, and a third one of zeros.
fn join(first: &[u8; 1024], second: &[u8; 1024]) -> [u8; 3072] {
    let mut pages = [0; 3072];
    pages[..1024].copy_from_slice(first);
    pages[1024..2048].copy_from_slice(second);
    pages
}

// These pages up to one byte before page 1 ends.
fn cut(pages: &[u8; 3072]) -> &[u8] {
    &pages[..2047]
}

// The database in two files.
fn open(heap: Global, dir: &[u8], pag: &[u8]) -> Result<Database<Flat>, AllocError> {
    let image = joined(heap, dir, pag)?;
    Ok(Database::new(Flat::new(image)))
}

// The value of a key, or the refusal.
fn value<'a>(
    files: &mut Database<Flat>,
    key: &[u8],
    page: &'a mut [u8; 1024],
) -> Result<Option<&'a [u8]>, Numbers> {
    match told(files.fetch(key, page))? {
        Some(place) => Ok(Some(told(view(page, place))?)),
        None => Ok(None),
    }
}

// The place of the next pair, or the refusal; no place at the end.
fn next(files: &mut Database<Flat>, at: Position) -> Result<Option<(u32, u32)>, Numbers> {
    let mut page = [0; 1024];
    match told(files.step(at, &mut page))? {
        Stepped::Pair((_, _, (page, after))) => Ok(Some((page, after.saturating_sub(1)))),
        Stepped::End => Ok(None),
    }
}

// The key and the value of the next pair, or the refusal.
fn pair<'a>(
    files: &mut Database<Flat>,
    at: Position,
    page: &'a mut [u8; 1024],
) -> Result<Option<(&'a [u8], &'a [u8])>, Numbers> {
    match told(files.step(at, page))? {
        Stepped::Pair((key, value, _)) => {
            Ok(Some((told(view(page, key))?, told(view(page, value))?)))
        }
        Stepped::End => Ok(None),
    }
}

#[test]
fn values(rt: HostRuntime) -> Result<(), Fail> {
    let mut page = [0; 1024];
    let mut files = open(rt.alloc(), &[1], &pages())?;
    assert_eq!(rt;
        value(&mut files, b"a", &mut page),
        Ok(Some(b"12".as_slice())),
        "and not the stray pair's"
    );
    assert_eq!(rt;
        value(&mut files, b"b", &mut page),
        Ok(Some(b"4".as_slice()))
    );
    assert_eq!(rt;
        value(&mut files, b"c", &mut page),
        Ok(Some(b"".as_slice()))
    );
    assert_eq!(rt;
        value(&mut files, b"d", &mut page),
        Ok(None),
        "a stray pair"
    );
    assert_eq!(rt; value(&mut files, b"e", &mut page), Ok(None));
    assert_eq!(rt; value(&mut files, b"", &mut page), Err((1, 0, 0)));
    Ok(())
}

#[test]
fn next_places(rt: HostRuntime) -> Result<(), Fail> {
    let mut files = open(rt.alloc(), &[1], &pages())?;
    assert_eq!(rt;
        next(&mut files, (0, 0)),
        Ok(Some((0, 1))),
        "past the stray pair"
    );
    assert_eq!(rt;
        next(&mut files, (0, 2)),
        Ok(Some((1, 0))),
        "from page to page"
    );
    assert_eq!(rt; next(&mut files, (1, 1)), Ok(Some((1, 2))));
    assert_eq!(rt; next(&mut files, (1, 3)), Ok(None));
    assert_eq!(rt; next(&mut files, (32768, 0)), Ok(None));
    assert_eq!(rt; next(&mut files, (u32::MAX, u32::MAX)), Ok(None));
    Ok(())
}

#[test]
fn next_pairs(rt: HostRuntime) -> Result<(), Fail> {
    let mut page = [0; 1024];
    let mut files = open(rt.alloc(), &[1], &pages())?;
    assert_eq!(rt;
        pair(&mut files, (0, 0), &mut page),
        Ok(Some((b"b".as_slice(), b"4".as_slice())))
    );
    assert_eq!(rt;
        pair(&mut files, (0, 2), &mut page),
        Ok(Some((b"a".as_slice(), b"12".as_slice())))
    );
    assert_eq!(rt;
        pair(&mut files, (1, 1), &mut page),
        Ok(Some((b"c".as_slice(), b"".as_slice())))
    );
    Ok(())
}

#[test]
fn cut_pages(rt: HostRuntime) -> Result<(), Fail> {
    let mut page = [0; 1024];
    let mut files = open(rt.alloc(), &[1], cut(&pages()))?;
    assert_eq!(rt; value(&mut files, b"a", &mut page), Err((9, 1, 5)));
    assert_eq!(rt; value(&mut files, b"", &mut page), Err((1, 0, 0)));
    assert_eq!(rt;
        value(&mut files, b"b", &mut page),
        Ok(Some(b"4".as_slice()))
    );
    assert_eq!(rt; next(&mut files, (0, 0)), Ok(Some((0, 1))));
    assert_eq!(rt; next(&mut files, (0, 2)), Err((9, 1, 5)));
    let mut blank = open(rt.alloc(), &[], &[])?;
    assert_eq!(rt; value(&mut blank, b"a", &mut page), Err((9, 1, 4)));
    Ok(())
}

#[test]
fn bad_page(rt: HostRuntime) -> Result<(), Fail> {
    let pag = join(
        &page_of(&[2, 1023, 1022], b"4b"),
        &page_of(&[2, 1023, 5], b"a"),
    );
    let mut page = [0; 1024];
    let mut files = open(rt.alloc(), &[1], &pag)?;
    assert_eq!(rt; value(&mut files, b"a", &mut page), Err((6, 0, 5)));
    assert_eq!(rt;
        value(&mut files, b"b", &mut page),
        Ok(Some(b"4".as_slice()))
    );
    assert_eq!(rt; next(&mut files, (0, 0)), Ok(Some((0, 0))));
    assert_eq!(rt; next(&mut files, (0, 1)), Err((6, 0, 5)));
    let mut whole = open(rt.alloc(), &[], &pag)?;
    assert_eq!(rt;
        next(&mut whole, (0, 1)),
        Ok(None),
        "a bad page that is not reachable"
    );
    Ok(())
}

// A short, a whole and an overlong directory, before two bytes and before none.
#[test]
fn joins_within(rt: HostRuntime) -> Result<(), Fail> {
    let long = vec![in rt.alloc(); 7_u8; 4097]?;
    let filled = [
        (&long[..0], 0),
        (&long[..4095], 0),
        (&long[..4096], 7),
        (&long[..], 7),
    ];
    for (dir, last) in filled {
        let image = joined_within(dir.to_vec(rt.alloc())?, b"ab".to_vec(rt.alloc())?)?;
        assert_eq!(rt; image.len(), 4098);
        assert!(rt; image.starts_with(&dir[..dir.len().min(4096)]));
        assert!(rt; image.ends_with(&[last, b'a', b'b']));
        assert_eq!(rt; image, joined(rt.alloc(), dir, b"ab")?);
        let alone = joined_within(dir.to_vec(rt.alloc())?, Vec::new(rt.alloc()))?;
        assert_eq!(rt; alone.len(), 4096);
        assert!(rt; image.starts_with(alone.as_slice()));
    }
    Ok(())
}

#[test]
fn reachable(rt: HostRuntime) {
    assert_eq!(rt; reachable_from(&[5], 0), Some(0));
    assert_eq!(rt; reachable_from(&[5], 1), Some(1));
    assert_eq!(rt; reachable_from(&[5], 2), Some(3));
    assert_eq!(rt; reachable_from(&[5], 4), None);
    assert_eq!(rt; reachable_from(&[5], u32::MAX), None);
}
