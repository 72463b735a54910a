ghost use Rattle.std.specs.Prelude.{◌≡◌, ℕ, ◌+◌, ◌*◌, ◌<◌, ◌≤◌, Decides, List, [], ◌∷◌, ◌++◌, length, take};
ghost use Rattle.page_edits.specs.Bytes.{Packed, put};
ghost use Rattle.page_edits.specs.Write.{le2, written};
ghost use Rattle.pages.specs.Blank.{bytes_of};
ghost use Rattle.pages.specs.Page.{Pair, pairs, pairs_of};

use crate::bytes::put16;
use pages::{PAGE, PairPage};

// How far a page has been written: how many pairs it has, and where the bytes of the last one start. Each pair lies below
// those before it. The buffer is handed along beside it, so that each clause can say what it holds before and after.
#[derive(Clone, Copy)]
pub(crate) struct Packing {
    pub(crate) count: usize,
    pub(crate) free: usize,
    ghost room: { 4 * count + 2 ≤ free },
    ghost within: { free ≤ 1024 },
}

impl Packing {
    // All pairs of a page, as they lie there.
    pub(crate) fn of(page: &PairPage) -> Packing
        ensures { Packed (pairs_of (bytes_of page.now.good)) (bytes_of page.now.good) result.count result.free }
    {
        let count = page.count();
        Packing {
            count,
            free: page.key_end(count),
        }
    }

    // The first pairs of a page, as they lie there, in the buffer.
    pub(crate) fn front(page: &PairPage, count: usize, out: &mut [u8; PAGE]) -> Packing
        requires { count ≤ pairs (bytes_of page.now.good) }
        ensures { Packed (take count (pairs_of (bytes_of page.now.good))) out.new result.count result.free }
    {
        out.copy_from_slice(page.bytes());
        Packing {
            count,
            free: page.key_end(count),
        }
    }

    // Whether one more pair fits, where no other has its key: the key is not empty, and there is room.
    pub(crate) fn can_take(&self, key: &[u8], value: &[u8]) -> bool
        ensures { Decides result ((0 < length key.now) × (4 * self.now.count + 6 + (length key.now + length value.now) ≤ self.now.free)) }
    {
        let room = self.free - (4 * self.count + 2);
        !key.is_empty() && key.len().saturating_add(value.len()).saturating_add(4) <= room
    }

    // One more pair.
    pub(crate) fn push(&mut self, key: &[u8], value: &[u8], out: &mut [u8; PAGE])
        requires { 4 * self.old.count + 6 + (length key.now + length value.now) ≤ self.old.free }
        ensures packed { (ps : List Pair) → Packed ps out.old self.old.count self.old.free → Packed (ps ++ (key.now, value.now) ∷ []) out.new self.new.count self.new.free }
    {
        self.make_place(key.len(), value.len(), out);
        let at = self.free + value.len();
        out[self.free..at].copy_from_slice(value);
        out[at..at + key.len()].copy_from_slice(key);
    }

    // The same of a pair whose bytes lie together, its value first, as they do in a page: they are copied at once.
    pub(crate) fn push_bytes(&mut self, pair: &[u8], value_len: usize, out: &mut [u8; PAGE])
        requires room { 4 * self.old.count + 6 + length pair.now ≤ self.old.free }
        requires within { value_len ≤ length pair.now }
        ensures packed { (ps : List Pair) (key value : List ℕ) → pair.now ≡ value ++ key → value_len ≡ length value → Packed ps out.old self.old.count self.old.free → Packed (ps ++ (key, value) ∷ []) out.new self.new.count self.new.free }
    {
        self.make_place(pair.len() - value_len, value_len, out);
        out[self.free..self.free + pair.len()].copy_from_slice(pair);
    }

    // The place of one more pair, whose key and value have these lengths: below the pairs before it. Its two offsets are written.
    fn make_place(&mut self, key_len: usize, value_len: usize, out: &mut [u8; PAGE])
        requires { 4 * self.old.count + 6 + (key_len + value_len) ≤ self.old.free }
        ensures count { self.new.count ≡ self.old.count + 1 }
        ensures free { self.new.free + (key_len + value_len) ≡ self.old.free }
        ensures offsets { out.new ≡ put (put out.old (4 * self.old.count + 2) (le2 (self.new.free + value_len))) (4 * self.old.count + 4) (le2 self.new.free) }
    {
        let at = self.free - key_len;
        let val = at - value_len;
        put16(out, 4 * self.count + 2, at as u16);
        put16(out, 4 * self.count + 4, val as u16);
        self.count += 1;
        self.free = val;
    }

    // The written page: the count goes first, and zeros into the free middle.
    pub(crate) fn finish(self, out: &mut [u8; PAGE])
        ensures { (ps : List Pair) → Packed ps out.old self.count self.free → out.new ≡ written ps }
    {
        put16(out, 0, 2 * self.count as u16);
        out[4 * self.count + 2..self.free].fill(0);
    }
}
