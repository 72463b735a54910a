ghost use Rattle.std.specs.Prelude.{◌≡◌, ◌+◌, ◌≤◌, filter, take};
ghost use Rattle.page_edits.specs.Bytes.{Packed};
ghost use Rattle.page_edits.specs.Edit.{Appended, Written, dropped, falling, falls, with_pair};
ghost use Rattle.page_edits.specs.Stay.{all_but, stays};
ghost use Rattle.pages.specs.Blank.{bytes_of};
ghost use Rattle.pages.specs.Page.{pairs, pairs_of};

use crate::packing::Packing;
use directory::low_bits;
use faults::{Fault, Refusal};
use keys::{hash_of, same_key};
use pages::{PAGE, PairPage};

// The page with only the pairs whose hash has these low bits.
pub fn keep(page: &PairPage, bits: u32, low: u32, out: &mut [u8]) -> Result<(), Fault>
    ensures { Written (falling bits low (pairs_of (bytes_of page.now.good))) out.old result out.new }
{
    let Some(out) = out.as_mut_array::<PAGE>() else {
        return Err(Fault::database(Refusal::NotABlock, 0));
    };
    copy_kept(page, None, bits, low, out).finish(out);
    Ok(())
}

// The same, without the key's own pair.
pub fn keep_others(
    page: &PairPage,
    key: &[u8],
    bits: u32,
    low: u32,
    out: &mut [u8],
) -> Result<(), Fault>
    ensures { Written (dropped key.now (falling bits low (pairs_of (bytes_of page.now.good)))) out.old result out.new }
{
    let Some(out) = out.as_mut_array::<PAGE>() else {
        return Err(Fault::database(Refusal::NotABlock, 0));
    };
    copy_kept(page, Some(key), bits, low, out).finish(out);
    Ok(())
}

// The same, with a new pair of the key after the others, and whether it fits; where it does not, the buffer stays as it was.
pub fn replace(
    page: &PairPage,
    key: &[u8],
    value: &[u8],
    bits: u32,
    low: u32,
    out: &mut [u8],
) -> Result<bool, Fault>
    ensures { Appended (with_pair (dropped key.now (falling bits low (pairs_of (bytes_of page.now.good)))) key.now value.now) out.old result out.new }
{
    let Some(out) = out.as_mut_array::<PAGE>() else {
        return Err(Fault::database(Refusal::NotABlock, 0));
    };
    // What is kept is known only once it is copied, so it is copied to a page of its own.
    let mut new = [0; PAGE];
    let mut packing = copy_kept(page, Some(key), bits, low, &mut new);
    if !packing.can_take(key, value) {
        return Ok(false);
    }
    packing.push(key, value, &mut new);
    packing.finish(&mut new);
    out.copy_from_slice(&new);
    Ok(true)
}

// Packs the pairs that are kept into the buffer: those whose hash has these low bits, all but one key's where it is given. Those
// before the first that is not kept are copied as they lie, and nearly always these are all. That one is not looked at again, since
// its key was hashed already: on a page of one long key that goes, the second hash was half of the time.
// Each edit has it as a loop of its own: with one loop for all three `keep` took 13 % longer (660 ns for 582).
#[inline(always)]
fn copy_kept(
    page: &PairPage,
    but: Option<&[u8]>,
    bits: u32,
    low: u32,
    out: &mut [u8; PAGE],
) -> Packing
    ensures { Packed (all_but but.entry (falling bits low (pairs_of (bytes_of page.now.good)))) out.new result.count result.free }
{
    let first = count_kept(page, but, bits, low);
    let mut packing = Packing::front(page, first, out);
    // Over the numbers of the pairs: with a chain that gives their parts the proof of a turn did not close.
    for k in first + 1..page.count() {
        if let Some((pair, value_len)) = page.pair_bytes(k) {
            if stays(&pair[value_len..], but, bits, low) {
                packing.push_bytes(pair, value_len, out);
            }
        }
    }
    packing
}

// How many pairs stand before the first that is not kept.
#[inline(always)]
fn count_kept(page: &PairPage, but: Option<&[u8]>, bits: u32, low: u32) -> usize
    ensures within { result ≤ pairs (bytes_of page.now.good) }
    ensures kept { filter (λ q. stays but.entry bits low q.0) (take result (pairs_of (bytes_of page.now.good))) ≡ take result (pairs_of (bytes_of page.now.good)) }
    ensures next { filter (λ q. stays but.entry bits low q.0) (take (result + 1) (pairs_of (bytes_of page.now.good))) ≡ take result (pairs_of (bytes_of page.now.good)) }
{
    let count = page.count();
    for k in 0..count {
        let Some((key, _)) = page.parts(k) else {
            return k;
        };
        if !stays(key, but, bits, low) {
            return k;
        }
    }
    count
}

// Whether the pair of this key is kept.
#[inline(always)]
fn stays(key: &[u8], but: Option<&[u8]>, bits: u32, low: u32) -> bool
    ensures { result ≡ stays but.entry bits low key.now }
{
    falls(key, bits, low) && !but.is_some_and(|other| same_key(key, other))
}

// Whether the hash of the key has these low bits. With no bits it need not be computed: they are 0.
fn falls(key: &[u8], bits: u32, low: u32) -> bool
    ensures { result ≡ falls bits low key.now }
{
    if bits == 0 {
        low == 0
    } else {
        low_bits(hash_of(key), bits) == low
    }
}
