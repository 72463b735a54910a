ghost use Rattle.std.specs.Prelude.{◌≡◌, ◌+◌, ◌-◌, ◌≤◌, min, replicate, Decides, MatchBool, is_some};
ghost use Rattle.pages.specs.Blank.{bytes_of};
ghost use Rattle.pages.specs.Check.{Checked};
ghost use Rattle.pages.specs.Page.{Good, key_end, pairs};
ghost use Rattle.pages.specs.Read.{Found, LiesAt, PairAt, PartsAt, ValueOf, Which, bytes_at, told_part, viewed};

use crate::checking::{as_good, get16, key_at, key_end, number_among, val_at};
use crate::page::{PAGE, PairPage, Place};
use faults::{Fault, Refusal};

static BLANK: [u8; PAGE] = [0; PAGE];

impl<'a> PairPage<'a> {
    // Reads a page, if it is good.
    pub fn check(page: &'a [u8]) -> Option<PairPage<'a>>
        ensures { Checked page.now result }
    {
        let page = PairPage::read(page);
        page.is_good().then_some(page)
    }

    // Reads a page, whatever its bytes are.
    pub fn read(page: &'a [u8]) -> PairPage<'a>
        ensures good { Decides (is_some result.good) (Good page.now) }
        ensures bytes { MatchBool (is_some result.good) (bytes_of result.good ≡ page.now) (bytes_of result.good ≡ replicate 1024 0) }
    {
        PairPage {
            good: as_good(page),
        }
    }

    // Whether the bytes that were read are a good page.
    pub fn is_good(&self) -> bool
        ensures { result ≡ is_some self.now.good }
    {
        self.good.is_some()
    }

    // The page's bytes; the blank page's where those that were read are not good.
    pub fn bytes(&self) -> &'a [u8]
        ensures { result.now ≡ bytes_of self.now.good }
    {
        self.block()
    }

    // How many pairs the page has.
    pub fn count(&self) -> usize
        ensures { result ≡ pairs (bytes_of self.now.good) }
    {
        get16(self.block(), 0) / 2
    }

    // Where the key of pair k ends, and past the last pair where the free middle does.
    pub fn key_end(&self, k: usize) -> usize
        ensures { result ≡ key_end (bytes_of self.now.good) (min k (pairs (bytes_of self.now.good))) }
    {
        key_end(self.block(), k.min(self.count()))
    }

    // Where the key and the value of pair k lie.
    pub fn pair(&self, k: usize) -> Option<(Place, Place)>
        ensures { PairAt (bytes_of self.now.good) k result }
    {
        if k >= self.count() {
            return None;
        }
        let page = self.block();
        let at = key_at(page, k);
        Some((place(at, key_end(page, k)), place(val_at(page, k), at)))
    }

    // The bytes of pair k as they lie in the page, its value and then its key, and how many of them are the value's.
    pub fn pair_bytes(&self, k: usize) -> Option<(&'a [u8], usize)>
        ensures { LiesAt (bytes_of self.now.good) k result }
    {
        let ((_, key_len), (from, value_len)) = self.pair(k)?;
        let pair = part(self.block(), (from, value_len + key_len));
        Some((pair, usize::from(value_len)))
    }

    // The key and the value of pair k, as they lie in the page.
    pub fn parts(&self, k: usize) -> Option<(&'a [u8], &'a [u8])>
        ensures { PartsAt (bytes_of self.now.good) k result }
    {
        let (pair, value_len) = self.pair_bytes(k)?;
        let (value, key) = pair.split_at(value_len);
        Some((key, value))
    }

    // Which pair has the key.
    pub fn number_of(&self, key: &[u8]) -> Option<usize>
        ensures { Which (bytes_of self.now.good) (pairs (bytes_of self.now.good)) key.now result }
    {
        number_among(self.block(), self.count(), key)
    }

    // Where the value of the key lies.
    pub fn find(&self, key: &[u8]) -> Option<Place>
        ensures { Found (bytes_of self.now.good) key.now result }
    {
        let (_, value) = self.pair(self.number_of(key)?)?;
        Some(value)
    }

    // The value of the key, as it lies in the page.
    pub fn value_of(&self, key: &[u8]) -> Option<&'a [u8]>
        ensures { ValueOf (bytes_of self.now.good) key.now result }
    {
        let (_, part) = self.parts(self.number_of(key)?)?;
        Some(part)
    }

    // The same bytes, with their number in the type.
    fn block(&self) -> &'a [u8; PAGE]
        ensures { result.now ≡ bytes_of self.now.good }
    {
        self.good.unwrap_or(&BLANK)
    }
}

// The part of the page at a place.
pub fn view(page: &[u8], place: Place) -> Result<&[u8], Fault>
    ensures { told_part result ≡ viewed page.now place }
{
    if page.len() != PAGE {
        return Err(Fault::database(Refusal::NotABlock, 0));
    }
    let (offset, len) = place;
    let from = usize::from(offset);
    page.get(from..from + usize::from(len))
        .ok_or(Fault::database(Refusal::OutsidePage, 0))
}

// The part of a page at a place that lies inside.
fn part(page: &[u8; PAGE], place: Place) -> &[u8]
    requires { place.0 + place.1 ≤ 1024 }
    ensures { result.now ≡ bytes_at page.now place }
{
    let (offset, len) = place;
    let from = usize::from(offset);
    &page[from..from + usize::from(len)]
}

// The place from one byte of a page up to another.
fn place(from: usize, to: usize) -> Place
    requires { (from ≤ to) × (to ≤ 1024) }
    ensures { result ≡ (from, to - from) }
{
    (from as u16, (to - from) as u16)
}
