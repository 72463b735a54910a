// The state of the two files.
use directory::is_reachable;
use image::{DIRECTORY, PAGES, reachable_from};
use pages::PAGE;
use std::io;
use std::io::Write;

// How long the directory file is, and what that means.
pub(crate) fn tell_directory<W: Write>(
    out: &mut W,
    path: &str,
    file: Option<&[u8]>,
) -> io::Result<()> {
    let Some(bytes) = file else {
        return writeln!(out, "{path}: cannot be read: taken as empty");
    };
    let len = bytes.len();
    if len < DIRECTORY {
        let short = DIRECTORY - len;
        writeln!(
            out,
            "{path}: {len} bytes, {short} short of a whole directory: filled up with zeros"
        )
    } else if len > DIRECTORY {
        let past = len - DIRECTORY;
        writeln!(
            out,
            "{path}: {len} bytes, {past} past the directory: left alone"
        )
    } else {
        writeln!(out, "{path}: {len} bytes, a whole directory")
    }
}

// The same of the page file.
pub(crate) fn tell_pages<W: Write>(out: &mut W, path: &str, file: Option<&[u8]>) -> io::Result<()> {
    let Some(bytes) = file else {
        return writeln!(out, "{path}: cannot be read: taken as empty");
    };
    let len = bytes.len();
    let whole = len / PAGE;
    let part = len % PAGE;
    if part == 0 {
        writeln!(out, "{path}: {len} bytes, {whole} whole pages")
    } else {
        writeln!(
            out,
            "{path}: {len} bytes, {whole} whole pages, and a part page of {part} bytes: left alone"
        )
    }
}

// The reachable pages that the page file does not have.
pub(crate) fn tell_missing<W: Write>(
    out: &mut W,
    path: &str,
    dir: &[u8],
    pag: &[u8],
) -> io::Result<()> {
    let whole = u32::try_from(pag.len() / PAGE).unwrap_or(u32::MAX);
    let Some(first) = reachable_from(dir, whole) else {
        return Ok(());
    };
    let missing = count_reachable(dir, first);
    writeln!(
        out,
        "{path}: {missing} reachable pages lie past the end, from page {first} on"
    )
}

// How many pages from a number on are reachable.
fn count_reachable(dir: &[u8], first: u32) -> usize {
    (first..PAGES)
        .filter(|page| is_reachable(dir, *page))
        .count()
}
