ghost use Rattle.std.specs.Prelude.{◌≡◌, ◌+◌, ◌<◌, ◌≤◌, ◌/◌, ◌∷◌, [], length, Some, Ok, Err};
ghost use Rattle.calls.specs.Delete.{home_depth};
ghost use Rattle.calls.specs.Fetch.{home_bytes};
ghost use Rattle.calls.specs.Store.{bits_clear, change_calls, decided, last_write, room_calls, slot, store_calls, stored, with_pair_input};
ghost use Rattle.calls.specs.declared.Mode.TheVariants.{Replace};
ghost use Rattle.contents.specs.Blocks.{bits_in, blocks_of};
ghost use Rattle.devices.specs.Trace.{Did, Trace};
ghost use Rattle.directory.specs.Ending.{leaf_of};
ghost use Rattle.keys.specs.Hash.{hash as Hashed};
ghost use Rattle.lookup.specs.Made.{Made};
ghost use Rattle.page_edits.specs.Edit.{with_pair};
ghost use Rattle.page_edits.specs.Write.{Fits};
ghost use Rattle.pages.specs.Blank.{bytes_of};
ghost use Rattle.pages.specs.Page.{pairs_of};
ghost use Rattle.splits.specs.Plan.{plan};
ghost use Rattle.splits.specs.Writes.{others};

use crate::Database;
use crate::checking::{BITS, DirectoryBlocks, check_under};
use crate::splitting::{claim_all, split_all};
use calls::Mode;
use devices::{BLOCK, Device};
use directory::way::Way;
use directory::{Leaf, low_bits};
use faults::{Fault, Layer, Refusal};
use keys::hash_of;
use lookup::{DIRECTORY_BLOCKS, good_page, look_up};
use page_edits::replace;
use pages::PairPage;
use records::{LONGEST, Record};
use splits::plan;

// A key and its value take no more bytes.
const LONGEST_PAIR: usize = 1008;

impl<D: Device> Database<D> {
    // Stores a pair. All its reads come before all its claims, and all its claims before all its writes.
    pub fn store(&mut self, key: &[u8], value: &[u8], mode: Mode) -> Result<(), Fault>
        ensures { Made D.Device.steps D.Device.meaning self.old.device (λ blocks. store_calls blocks key.now value.now mode) (λ blocks. stored blocks key.now value.now mode) result self.new.device }
    {
        check_pair(key, value)?;
        let hash = hash_of(key);
        let mut directory = [0; BLOCK];
        let leaf = look_up(&mut self.device, hash, &mut directory)?;
        let home = DIRECTORY_BLOCKS + leaf.page;
        let mut block = [0; BLOCK];
        self.device.read(home, &mut block)?;
        let page = good_page(&block, home)?;
        let splits = decide(&page, &leaf, key, value, mode)?;
        self.change(&page, &leaf, &directory, hash, key, value, splits)
    }

    // Stores a record's code, whatever value the key has.
    pub fn put<R: Record>(&mut self, key: &[u8], item: &R) -> Result<(), Fault>
        ensures { Made D.Device.steps D.Device.meaning self.old.device (λ blocks. store_calls blocks key.now (R.Record.code item.now) Replace) (λ blocks. stored blocks key.now (R.Record.code item.now) Replace) result self.new.device }
    {
        let mut code = [0; LONGEST];
        let length = item.encode(&mut code);
        self.store(key, &code[..length], Mode::Replace)
    }
}

impl<D: Device> Database<D> {
    // What is left of a store once the number of splits is known, with its home page and the directory block that the lookup
    // read last.
    fn change(
        &mut self,
        page: &PairPage,
        leaf: &Leaf,
        directory: &[u8; BLOCK],
        hash: u32,
        key: &[u8],
        value: &[u8],
        splits: u32,
    ) -> Result<(), Fault>
        requires leaf { leaf.now ≡ leaf_of (bits_in (blocks_of (D.Device.meaning self.old.device))) (Hashed key.now) }
        requires page { bytes_of page.now.good ≡ home_bytes (blocks_of (D.Device.meaning self.old.device)) key.now }
        requires directory { leaf.now.depth < 15 → directory.now ≡ blocks_of (D.Device.meaning self.old.device) (leaf.now.index / 8192) }
        requires plan { plan (pairs_of (bytes_of page.now.good)) key.now value.now leaf.now.depth ≡ Some splits }
        requires named { 0 < length key.now }
        requires hash { hash ≡ Hashed key.now }
        ensures { Made D.Device.steps D.Device.meaning self.old.device (λ blocks. change_calls blocks key.now value.now splits) (λ blocks. bits_clear (bits_in blocks) (Hashed key.now) (home_depth blocks key.now) splits) result self.new.device }
    {
        self.make_room(page, way_to(hash, leaf.depth), splits, directory)?;
        put_pair(
            &mut self.device,
            page,
            hash,
            key,
            value,
            leaf.depth + splits,
        )
    }

    // Claims the home page, and makes the splits; nearly always there is none.
    fn make_room(
        &mut self,
        page: &PairPage,
        way: Way,
        splits: u32,
        directory: &[u8; BLOCK],
    ) -> Result<(), Fault>
        requires deep { way.depth + splits ≤ 15 }
        requires directory { way.depth < 15 → directory.now ≡ blocks_of (D.Device.meaning self.old.device) (way.index / 8192) }
        ensures { Made D.Device.steps D.Device.meaning self.old.device (λ blocks. room_calls blocks (pairs_of (bytes_of page.now.good)) way.hash way.depth splits) (λ blocks. bits_clear (bits_in blocks) way.hash way.depth splits) result self.new.device }
    {
        if splits == 0 {
            return self.device.claim(DIRECTORY_BLOCKS + way.leaf().page);
        }
        let mut blocks = in_slot(way.leaf().index / BITS, directory);
        check_under(&mut self.device, way, splits, &mut blocks)?;
        claim_all(&mut self.device, way, splits)?;
        split_all(&mut self.device, page, way, splits, &mut blocks)
    }
}

// What a store refuses before it reads: an empty key, and a pair that no page has room for.
fn check_pair(key: &[u8], value: &[u8]) -> Result<(), Fault>
    ensures { result ≡ with_pair_input key.now value.now (λ f. Err f) (Ok tt) }
{
    if key.is_empty() {
        return Err(Layer::Database.fault(Refusal::EmptyKey, 0));
    }
    if key.len().saturating_add(value.len()) > LONGEST_PAIR {
        return Err(Layer::Database.fault(Refusal::PairTooLong, 0));
    }
    Ok(())
}

// How many splits the store makes, by what stands on its home page, and what it refuses by that.
fn decide(page: &PairPage, leaf: &Leaf, key: &[u8], value: &[u8], mode: Mode) -> Result<u32, Fault>
    requires { leaf.now.page < 32768 }
    ensures { result ≡ decided (bytes_of page.now.good) leaf.now.depth (4 + leaf.now.page) key.now value.now mode }
{
    let home = DIRECTORY_BLOCKS + leaf.page;
    if mode == Mode::Insert && page.find(key).is_some() {
        return Err(Layer::Database.fault(Refusal::KeyExists, home));
    }
    plan(page, leaf, key, value).ok_or(Layer::Database.fault(Refusal::NoPlan, home))
}

// Room for the directory's blocks, with block n in its slot.
fn in_slot(n: u32, block: &[u8; BLOCK]) -> DirectoryBlocks
    requires { n < 4 }
    ensures { slot result n ≡ block.now }
{
    let mut blocks = [[0; BLOCK]; 4];
    blocks[n as usize] = *block;
    blocks
}

// The way of a hash down to a depth.
fn way_to(hash: u32, depth: u32) -> Way
    requires { depth ≤ 15 }
    ensures { (result.hash ≡ hash) × (result.depth ≡ depth) }
{
    let mut way = Way::new(hash);
    for _ in 0..depth {
        way.go_down();
    }
    way
}

// Writes the key's page after the splits down to a depth: without the key's old pair, and with the new one after the others.
fn put_pair<D: Device>(
    device: &mut D,
    page: &PairPage,
    hash: u32,
    key: &[u8],
    value: &[u8],
    depth: u32,
) -> Result<(), Fault>
    requires hash { hash ≡ Hashed key.now }
    requires deep { depth ≤ 15 }
    requires fits { Fits (with_pair (others (pairs_of (bytes_of page.now.good)) key.now depth) key.now value.now) }
    ensures { Trace (Did D.Device.steps D.Device.meaning) device.old (last_write (pairs_of (bytes_of page.now.good)) key.now value.now depth ∷ []) (Ok tt) result device.new }
{
    let low = low_bits(hash, depth);
    let mut rest = [0; BLOCK];
    replace(page, key, value, depth, low, &mut rest)?;
    device.write(DIRECTORY_BLOCKS + low, &rest)
}
