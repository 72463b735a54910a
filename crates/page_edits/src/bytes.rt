ghost use Rattle.std.specs.Prelude.{◌≡◌, ◌+◌, ◌≤◌};
ghost use Rattle.page_edits.specs.Bytes.{put};
ghost use Rattle.page_edits.specs.Write.{le2};

use pages::PAGE;

// A 16-bit number over the two bytes from i on.
pub(crate) fn put16(page: &mut [u8; PAGE], i: usize, x: u16)
    requires { i + 2 ≤ 1024 }
    ensures { page.new ≡ put page.old i (le2 x) }
{
    page[i..i + 2].copy_from_slice(&x.to_le_bytes());
}
