ghost use Rattle.std.specs.Prelude.{◌≡◌, ◌+◌, ◌*◌, ◌%◌, ◌≤◌, length};
ghost use Rattle.pages.specs.Blank.{bytes_of};
ghost use Rattle.pages.specs.Page.{Apart, Bytes, Laid, count, key_end, pairs};

// How many bytes a page has.
pub const PAGE: usize = 1024;

// A place in a page: offset and length.
pub type Place = (u16, u16);

// A page that was read: the given bytes where they are a good page, and otherwise none. It then stands for the blank page,
// so that a page that is not good has no pairs. Without a model: `Copy` needs its inverse, and bytes give no reference back.
#[derive(Clone, Copy)]
pub struct PairPage<'a> {
    pub(crate) good: Option<&'a [u8; PAGE]>,
    ghost typed: { Bytes (bytes_of good) },
    ghost whole: { length (bytes_of good) ≡ 1024 },
    ghost even: { count (bytes_of good) % 2 ≡ 0 },
    ghost few: { count (bytes_of good) ≤ 510 },
    ghost laid: { Laid (bytes_of good) (pairs (bytes_of good)) },
    ghost room: { 2 * (count (bytes_of good) + 1) ≤ key_end (bytes_of good) (pairs (bytes_of good)) },
    ghost apart: { Apart (bytes_of good) (pairs (bytes_of good)) },
}
