// Runs of fetches, walks and stores.
ghost use Rattle.std.specs.Prelude.{◌≡◌, ◌*◌, IfSome, is_some};
ghost use Rattle.bench_api.specs.Runs.{Brings, Counts, ShowsRest, Stores, Updates, held_among, name_in, pairs_held, slots_of};
ghost use Rattle.contents.specs.Blocks.{blocks_of};
ghost use Rattle.contents.specs.Contents.{contents_of, held};
ghost use Rattle.upkeep.specs.Holding.{backing_of};

use cache::Cache;
use calls::Mode;
use database::{Database, Position, Stepped};
use devices::{BLOCK, Device};

// What is answered where a call was refused, there was no memory, or a sum would be too large.
pub(crate) const NONE: u64 = u64::MAX;

// A name takes so many bytes of a list: its length, the name, and what fills them up.
const SLOT: usize = 32;

// Fetches each of the names, so many times over, through a cache or not, and answers how many were found.
pub(crate) fn fetches<D: Device + Drop>(device: D, cached: bool, names: &[u8], rounds: u32) -> u64
    ensures { Counts (rounds * held_among (contents_of (blocks_of (D.Device.meaning device))) (slots_of names.now)) result }
{
    let count = if cached {
        count_held(Cache::new(device), names, rounds)
    } else {
        count_held(device, names, rounds)
    };
    count.unwrap_or(NONE)
}

// Walks over the pairs, so many times, through a cache or not, and answers how many were shown.
pub(crate) fn walks<D: Device + Drop>(device: D, cached: bool, rounds: u32) -> u64
    ensures { Counts (rounds * pairs_held (contents_of (blocks_of (D.Device.meaning device)))) result }
{
    let count = if cached {
        count_pairs(Cache::new(device), rounds)
    } else {
        count_pairs(device, rounds)
    };
    count.unwrap_or(NONE)
}

fn count_held<D: Device + Drop>(device: D, names: &[u8], rounds: u32) -> Option<u64>
    ensures { IfSome result (λ n. n ≡ rounds * held_among (contents_of (blocks_of (D.Device.meaning device))) (slots_of names.now)) }
{
    let mut database = Database::new(device);
    let (slots, _) = names.as_chunks::<SLOT>();
    let mut count = 0u64;
    for _ in 0..rounds {
        count = count.checked_add(held_once(&mut database, slots)?)?;
    }
    Some(count)
}

// How many of the names are found, each fetched once.
fn held_once<D: Device>(database: &mut Database<D>, slots: &[[u8; SLOT]]) -> Option<u64>
    ensures count { IfSome result (λ n. n ≡ held_among (contents_of (blocks_of (D.Device.meaning database.old.device))) slots.now) }
    ensures same { blocks_of (D.Device.meaning database.new.device) ≡ blocks_of (D.Device.meaning database.old.device) }
{
    let mut page = [0; BLOCK];
    let mut count = 0u64;
    for slot in slots {
        if is_held(database, name_of(slot), &mut page)? {
            count += 1;
        }
    }
    Some(count)
}

// Whether a name is found; none where the fetch is refused.
fn is_held<D: Device>(
    database: &mut Database<D>,
    name: &[u8],
    page: &mut [u8; BLOCK],
) -> Option<bool>
    ensures held { IfSome result (λ b. b ≡ is_some (held (contents_of (blocks_of (D.Device.meaning database.old.device))) name.now)) }
    ensures same { blocks_of (D.Device.meaning database.new.device) ≡ blocks_of (D.Device.meaning database.old.device) }
{
    Some(database.fetch(name, page).ok()?.is_some())
}

// The name in a slot.
fn name_of(slot: &[u8; SLOT]) -> &[u8]
    ensures { result.now ≡ name_in slot.now }
{
    let end = usize::from(slot[0]).min(SLOT - 1);
    &slot[1..end + 1]
}

fn count_pairs<D: Device + Drop>(device: D, rounds: u32) -> Option<u64>
    ensures { IfSome result (λ n. n ≡ rounds * pairs_held (contents_of (blocks_of (D.Device.meaning device)))) }
{
    let mut database = Database::new(device);
    let mut count = 0u64;
    for _ in 0..rounds {
        count = count.checked_add(pairs_once(&mut database)?)?;
    }
    Some(count)
}

// How many pairs a walk shows.
fn pairs_once<D: Device>(database: &mut Database<D>) -> Option<u64>
    ensures count { IfSome result (λ n. n ≡ pairs_held (contents_of (blocks_of (D.Device.meaning database.old.device)))) }
    ensures same { blocks_of (D.Device.meaning database.new.device) ≡ blocks_of (D.Device.meaning database.old.device) }
{
    let mut page = [0; BLOCK];
    let mut count = 0u64;
    let mut at = (0, 0);
    while let Stepped::Pair((_, _, next)) = step(database, at, &mut page)? {
        count = count.checked_add(1)?;
        at = next;
    }
    Some(count)
}

// A step of a walk; none where it is refused.
fn step<D: Device>(
    database: &mut Database<D>,
    at: Position,
    page: &mut [u8; BLOCK],
) -> Option<Stepped>
    ensures shows { IfSome result (λ s. ShowsRest (contents_of (blocks_of (D.Device.meaning database.old.device))) at s) }
    ensures same { blocks_of (D.Device.meaning database.new.device) ≡ blocks_of (D.Device.meaning database.old.device) }
{
    database.step(at, page).ok()
}

// Stores each of the names with one value, through a cache or not, brings all of it down to the bottom, and gives the device back;
// none where a call was refused.
pub(crate) fn stores<D: Device + Drop>(
    device: D,
    cached: bool,
    names: &[u8],
    value: &[u8],
) -> Option<D>
    ensures { IfSome result (λ e. Stores (D.Device.meaning device) (slots_of names.now) value.now (backing_of (D.Device.meaning e))) }
{
    if cached {
        let cache = store_all(Cache::new(device), names, value)?;
        return Some(cache.into_below());
    }
    store_all(device, names, value)
}

fn store_all<D: Device + Drop>(device: D, names: &[u8], value: &[u8]) -> Option<D>
    ensures { IfSome result (λ e. Stores (D.Device.meaning device) (slots_of names.now) value.now (backing_of (D.Device.meaning e))) }
{
    let mut database = Database::new(device);
    let (slots, _) = names.as_chunks::<SLOT>();
    store_each(&mut database, slots, value)?;
    flush(&mut database)?;
    Some(database.into_device())
}

fn store_each<D: Device>(
    database: &mut Database<D>,
    slots: &[[u8; SLOT]],
    value: &[u8],
) -> Option<()>
    ensures { IfSome result (λ _. Stores (D.Device.meaning database.old.device) slots.now value.now (D.Device.meaning database.new.device)) }
{
    for slot in slots {
        store(database, name_of(slot), value)?;
    }
    Some(())
}

// A store of one pair; none where it is refused.
fn store<D: Device>(database: &mut Database<D>, name: &[u8], value: &[u8]) -> Option<()>
    ensures { IfSome result (λ _. Updates (D.Device.meaning database.old.device) name.now value.now (D.Device.meaning database.new.device)) }
{
    database.store(name, value, Mode::Replace).ok()
}

// Brings all that was stored down to the bottom; none where it is refused.
fn flush<D: Device>(database: &mut Database<D>) -> Option<()>
    ensures { IfSome result (λ _. Brings (D.Device.meaning database.old.device) (backing_of (D.Device.meaning database.new.device))) }
{
    database.flush().ok()
}
