// The page functions as C calls them, for the benchmark in bench/pages, where each call checks its page; and runs of fetches, walks
// and stores of a database, for the one in bench/database.
#![tactic(auto)]

mod runs;

ghost use Rattle.std.specs.Prelude.{◌≡◌, ◌*◌, Decides, IfSome};
ghost use Rattle.keys.specs.Hash.{hash};
ghost use Rattle.bench_api.specs.Answers.{Edited, IfItFits, StartsAt};
ghost use Rattle.bench_api.specs.Runs.{Counts, Stored, held_among, pairs_held, slots_of};
ghost use Rattle.contents.specs.Blocks.{blocks_of};
ghost use Rattle.contents.specs.Contents.{contents_of};
ghost use Rattle.flat.specs.Blocks.{flat};
ghost use Rattle.page_edits.specs.Edit.{dropped, falling, with_pair};
ghost use Rattle.page_edits.specs.Write.{written};
ghost use Rattle.pages.specs.Page.{Good, pairs_of};
ghost use Rattle.slotted.specs.Image.{meaning_of};

use flat::Flat;
use keys::hash_of;
use page_edits::{append, keep, without};
use pages::PairPage;
use runs::{NONE, fetches, stores, walks};
use slotted::Slotted;
use std::alloc::Global;

// What sym_find answers where the key is not there, and where the page is not good: no offset is as large. C's interface
// needs the two codes, as one number stands for all three answers.
const NOT_THERE: u32 = 2000;

const NOT_GOOD: u32 = 3000;

#[unsafe(no_mangle)]
pub extern "C" fn sym_hash(key: &[u8]) -> u32
    ensures { result ≡ hash key.now }
{
    hash_of(key)
}

#[unsafe(no_mangle)]
pub extern "C" fn sym_check(page: &[u8]) -> bool
    ensures { Decides result (Good page.now) }
{
    PairPage::check(page).is_some()
}

// Where the value of the key starts.
#[unsafe(no_mangle)]
pub extern "C" fn sym_find(page: &[u8], key: &[u8]) -> u32
    ensures { StartsAt page.now key.now result }
{
    let Some(pairs) = PairPage::check(page) else {
        return NOT_GOOD;
    };
    pairs
        .find(key)
        .map_or(NOT_THERE, |(offset, _)| u32::from(offset))
}

// The edits answer C yes or no. Each of the three checks its page in its own body, in three lines: one function for all
// would take the edit as a closure over page and buffer, and say its clause by what the closure says. That is no shorter.
#[unsafe(no_mangle)]
pub extern "C" fn sym_without(page: &[u8], key: &[u8], out: &mut [u8]) -> bool
    ensures { Edited page.now out.old result (λ new. new ≡ written (dropped key.now (pairs_of page.now))) out.new }
{
    let Some(pairs) = PairPage::check(page) else {
        return false;
    };
    without(&pairs, key, out).is_ok()
}

#[unsafe(no_mangle)]
pub extern "C" fn sym_append(page: &[u8], key: &[u8], value: &[u8], out: &mut [u8]) -> bool
    ensures { Edited page.now out.old result (IfItFits (with_pair (pairs_of page.now) key.now value.now) out.old) out.new }
{
    let Some(pairs) = PairPage::check(page) else {
        return false;
    };
    append(&pairs, key, value, out).is_ok()
}

#[unsafe(no_mangle)]
pub extern "C" fn sym_keep(page: &[u8], bits: u32, low: u32, out: &mut [u8]) -> bool
    ensures { Edited page.now out.old result (λ new. new ≡ written (falling bits low (pairs_of page.now))) out.new }
{
    let Some(pairs) = PairPage::check(page) else {
        return false;
    };
    keep(&pairs, bits, low, out).is_ok()
}

// Fetches each of the names, so many times over, from the database in an image, through a cache or not, and answers how many were
// found; the largest number where a call was refused or there was no memory.
#[unsafe(no_mangle)]
pub extern "C" fn sym_fetch_flat(
    heap: Global,
    image: &[u8],
    cached: bool,
    names: &[u8],
    rounds: u32,
) -> u64
    ensures { Counts (rounds * held_among (contents_of (blocks_of (flat image.now))) (slots_of names.now)) result }
{
    let Some(device) = open_flat(heap, image) else {
        return NONE;
    };
    fetches(device, cached, names, rounds)
}

// The same from a slotted image.
#[unsafe(no_mangle)]
pub extern "C" fn sym_fetch_slotted(
    heap: Global,
    image: &[u8],
    cached: bool,
    names: &[u8],
    rounds: u32,
) -> u64
    ensures { Counts (rounds * held_among (contents_of (blocks_of (meaning_of image.now))) (slots_of names.now)) result }
{
    let Some(device) = open_slotted(heap, image) else {
        return NONE;
    };
    fetches(device, cached, names, rounds)
}

// Walks over the database in an image, so many times, and answers how many pairs were shown.
#[unsafe(no_mangle)]
pub extern "C" fn sym_walk_flat(heap: Global, image: &[u8], cached: bool, rounds: u32) -> u64
    ensures { Counts (rounds * pairs_held (contents_of (blocks_of (flat image.now)))) result }
{
    let Some(device) = open_flat(heap, image) else {
        return NONE;
    };
    walks(device, cached, rounds)
}

// The same of a slotted image.
#[unsafe(no_mangle)]
pub extern "C" fn sym_walk_slotted(heap: Global, image: &[u8], cached: bool, rounds: u32) -> u64
    ensures { Counts (rounds * pairs_held (contents_of (blocks_of (meaning_of image.now)))) result }
{
    let Some(device) = open_slotted(heap, image) else {
        return NONE;
    };
    walks(device, cached, rounds)
}

// Stores each of the names with one value in the database in a slotted image, through a cache or not, and says whether all of it was
// done; where a call was refused or there was no memory, the image stays.
#[unsafe(no_mangle)]
pub extern "C" fn sym_store_slotted(
    heap: Global,
    image: &mut [u8],
    cached: bool,
    names: &[u8],
    value: &[u8],
) -> bool
    ensures { Stored image.old (slots_of names.now) value.now result image.new }
{
    let Some(device) = open_slotted(heap, image) else {
        return false;
    };
    let Some(device) = stores(device, cached, names, value) else {
        return false;
    };
    let bytes = device.into_bytes();
    if bytes.len() != image.len() {
        return false;
    }
    image.copy_from_slice(&bytes);
    true
}

// A flat device of a copy of an image; none where there is no memory.
fn open_flat(heap: Global, image: &[u8]) -> Option<Flat>
    ensures { IfSome result (λ device. device.bytes.items ≡ image.now) }
{
    let bytes = image.to_vec(heap).ok()?;
    Some(Flat::new(bytes))
}

// The same of a slotted device.
fn open_slotted(heap: Global, image: &[u8]) -> Option<Slotted>
    ensures { IfSome result (λ device. device.bytes.items ≡ image.now) }
{
    let bytes = image.to_vec(heap).ok()?;
    Slotted::open(heap, bytes).ok()
}
