ghost use Rattle.std.specs.Prelude.{◌≡◌, ◌+◌, ◌-◌, ◌*◌, ◌<◌, ◌≤◌, ◌++◌, take, drop};
ghost use Rattle.page_edits.specs.Bytes.{Packed};
ghost use Rattle.page_edits.specs.Edit.{Removed};
ghost use Rattle.page_edits.specs.Write.{offs};
ghost use Rattle.pages.specs.Blank.{bytes_of};
ghost use Rattle.pages.specs.Page.{key_end, pairs, pairs_of, val_at};
ghost use Rattle.std.specs.List.{remove};

use crate::bytes::put16;
use crate::packing::Packing;
use faults::{Fault, Refusal};
use pages::{PAGE, PairPage};

// The page without the key, and whether it was there.
pub fn without(page: &PairPage, key: &[u8], out: &mut [u8]) -> Result<bool, Fault>
    ensures { Removed (pairs_of (bytes_of page.now.good)) key.now out.old result out.new }
{
    let Some(out) = out.as_mut_array::<PAGE>() else {
        return Err(Fault::database(Refusal::NotABlock, 0));
    };
    match page.number_of(key) {
        Some(k) => {
            Removal::new(page, k).copy_rest(out).finish(out);
            Ok(true)
        }
        None => {
            out.copy_from_slice(page.bytes());
            Packing::of(page).finish(out);
            Ok(false)
        }
    }
}

// A pair that leaves its page: its number, where it starts and ends there, and where the pairs after it start.
#[derive(Clone, Copy)]
struct Removal<'a> {
    page: PairPage<'a>,
    number: usize,
    low: usize,
    start: usize,
    end: usize,
    ghost within: { number < pairs (bytes_of page.good) },
    ghost low_is: { low ≡ key_end (bytes_of page.good) (pairs (bytes_of page.good)) },
    ghost start_is: { start ≡ val_at (bytes_of page.good) number },
    ghost end_is: { end ≡ key_end (bytes_of page.good) number },
    ghost order: { (4 * pairs (bytes_of page.good) + 2 ≤ low) × ((low ≤ start) × ((start ≤ end) × (end ≤ 1024))) },
}

impl<'a> Removal<'a> {
    // The removal of pair k.
    fn new(page: &PairPage<'a>, k: usize) -> Removal<'a>
        requires { k < pairs (bytes_of page.now.good) }
        ensures page { result.page ≡ page.now }
        ensures number { result.number ≡ k }
    {
        Removal {
            page: *page,
            number: k,
            low: page.key_end(page.count()),
            start: page.key_end(k + 1),
            end: page.key_end(k),
        }
    }

    // The other pairs of the page: those before it stay where they are, and those after it rise to its end.
    fn copy_rest(&self, out: &mut [u8; PAGE]) -> Packing
        ensures { Packed (remove (pairs_of (bytes_of self.now.page.good)) self.now.number) out.new result.count result.free }
    {
        let page = self.page.bytes();
        let free = self.low + (self.end - self.start);
        let front = 4 * self.number + 2;
        out[0..front].copy_from_slice(&page[0..front]);
        self.raise(out);
        out[free..self.end].copy_from_slice(&page[self.low..self.start]);
        out[self.end..PAGE].copy_from_slice(&page[self.end..PAGE]);
        let count = self.page.count() - 1;
        Packing { count, free }
    }

    // Writes the offsets of the pairs after it, as they are once those have risen.
    fn raise(&self, out: &mut [u8; PAGE])
        ensures { take (4 * pairs (bytes_of self.now.page.good) - 2) out.new
            ≡ take (4 * self.now.number + 2) out.old ++ offs self.now.end (drop (self.now.number + 1) (pairs_of (bytes_of self.now.page.good))) }
    {
        let gap = (self.end - self.start) as u16;
        // Over the numbers of the pairs: a pair's number says where its offsets go.
        for j in self.number + 1..self.page.count() {
            if let Some(((key, _), (val, _))) = self.page.pair(j) {
                put16(out, 4 * j - 2, key + gap);
                put16(out, 4 * j, val + gap);
            }
        }
    }
}
