ghost use Rattle.std.specs.Prelude.{◌≡◌, ◌+◌, ◌*◌, ◌<◌, ◌≤◌, length, Decides, IfSome, is_some};
ghost use Rattle.pages.specs.Page.{Good, Laid, key_at, key_end, key_of, val_at, word};
ghost use Rattle.pages.specs.Read.{Which};

use crate::page::PAGE;
use keys::{fingerprint, same_key};

// How many prints there are.
const PRINTS: usize = 1024;

// These bytes, if they are a good page.
pub(crate) fn as_good(page: &[u8]) -> Option<&[u8; PAGE]>
    ensures some { IfSome result (λ block. block.now ≡ page.now) }
    ensures good { Decides (is_some result) (Good page.now) }
{
    let block = page.try_into().ok()?;
    has_good_pairs(block).then_some(block)
}

// The same of 1,024 bytes, in one pass. A table of the prints seen so far tells most keys apart at once: only where a
// print comes again are the keys before it compared.
fn has_good_pairs(page: &[u8; PAGE]) -> bool
    ensures { Decides result (Good page.now) }
{
    let n = get16(page, 0);
    if n % 2 != 0 || n > 510 {
        return false;
    }
    let mut seen = [false; PRINTS];
    let mut end = PAGE;
    // Over the numbers of the pairs, and not over chunks of the offsets: a pair's number says how many stand before it.
    for k in 0..n / 2 {
        let at = key_at(page, k);
        let val = val_at(page, k);
        if at >= end || val > at {
            return false;
        }
        let key = &page[at..end];
        let print = fingerprint(key);
        if seen[print] && number_among(page, k, key).is_some() {
            return false;
        }
        seen[print] = true;
        end = val;
    }
    end >= 2 * (n + 1)
}

// Which of the first m pairs has the key.
pub(crate) fn number_among(page: &[u8; PAGE], m: usize, key: &[u8]) -> Option<usize>
    requires few { m ≤ 255 }
    requires laid { Laid page.now m }
    ensures { Which page.now m key.now result }
{
    (0..m).find(|&k| same_key(key_of(page, k), key))
}

// The key of pair k, which is laid as those before it are.
fn key_of(page: &[u8; PAGE], k: usize) -> &[u8]
    requires few { k < 255 }
    requires laid { Laid page.now (k + 1) }
    ensures { result.now ≡ key_of page.now k }
{
    &page[key_at(page, k)..key_end(page, k)]
}

// Where the key of pair k starts. That k is below 255 is asked by each of these: as a u8 it would be converted at every call
// from outside, where any number may come.
pub(crate) fn key_at(page: &[u8; PAGE], k: usize) -> usize
    requires { k < 255 }
    ensures { result ≡ key_at page.now k }
{
    get16(page, 4 * k + 2)
}

// Where the value of pair k starts.
pub(crate) fn val_at(page: &[u8; PAGE], k: usize) -> usize
    requires { k < 255 }
    ensures { result ≡ val_at page.now k }
{
    get16(page, 4 * k + 4)
}

// Where the key of pair k ends.
pub(crate) fn key_end(page: &[u8; PAGE], k: usize) -> usize
    requires { k ≤ 255 }
    ensures { result ≡ key_end page.now k }
{
    if k == 0 { PAGE } else { val_at(page, k - 1) }
}

// The 16-bit number at byte i.
pub(crate) fn get16(page: &[u8], i: usize) -> usize
    requires { i + 2 ≤ length page.now }
    ensures value { result ≡ word page.now i }
    ensures small { result < 65536 }
{
    usize::from(u16::from_le_bytes([page[i], page[i + 1]]))
}
