// The claims and the writes of a store's splits.
ghost use Rattle.std.specs.Prelude.{◌≡◌, ◌+◌, ◌<◌, ◌≤◌, ◌/◌, ◌∷◌, [], List, Ok, OnOk, ℕ, slice_set};
ghost use Rattle.contents.specs.Blocks.{Blocks};
ghost use Rattle.calls.specs.Store.{Slots, claims, slot, split_write, split_writes, with_bit};
ghost use Rattle.devices.specs.Trace.{Did, Trace};
ghost use Rattle.directory.specs.Tree.{node};
ghost use Rattle.pages.specs.Blank.{bytes_of};
ghost use Rattle.pages.specs.Page.{pairs_of};

use crate::checking::{BITS, DirectoryBlocks};
use devices::{BLOCK, Device};
use directory::way::Way;
use faults::Fault;
use lookup::DIRECTORY_BLOCKS;
use page_edits::keep;
use pages::PairPage;

// Claims the page at a way's end, and for each split from there on the upper page and the directory block of its bit.
pub(crate) fn claim_all<D: Device>(device: &mut D, mut way: Way, splits: u32) -> Result<(), Fault>
    requires { way.depth + splits ≤ 15 }
    ensures { Trace (Did D.Device.steps D.Device.meaning) device.old (claims way.hash way.depth splits) (Ok tt) result device.new }
{
    device.claim(DIRECTORY_BLOCKS + way.leaf().page)?;
    for _ in 0..splits {
        let leaf = way.leaf();
        device.claim(DIRECTORY_BLOCKS + leaf.page + (1 << leaf.depth))?;
        device.claim(leaf.index / BITS)?;
        way.go_down();
    }
    Ok(())
}

// Writes so many splits from a way's end on, of a page whose pairs are all those that stand at its end.
pub(crate) fn split_all<D: Device>(
    device: &mut D,
    page: &PairPage,
    mut way: Way,
    splits: u32,
    directory: &mut DirectoryBlocks,
) -> Result<(), Fault>
    requires { way.depth + splits ≤ 15 }
    ensures { (blocks : Blocks)
        → ((j : ℕ) → j < splits → Slots blocks directory.old (node way.hash (way.depth + j) / 8192))
        → Trace (Did D.Device.steps D.Device.meaning) device.old (split_writes blocks (pairs_of (bytes_of page.now.good)) way.hash way.depth splits) (Ok tt) result device.new }
{
    for _ in 0..splits {
        split_one(device, page, &way, directory)?;
        way.go_down();
    }
    Ok(())
}

// Writes one split: the upper page, then the directory block with the bit set, and then the lower page.
fn split_one<D: Device>(
    device: &mut D,
    page: &PairPage,
    way: &Way,
    directory: &mut DirectoryBlocks,
) -> Result<(), Fault>
    requires { way.now.depth < 15 }
    ensures made { Trace (Did D.Device.steps D.Device.meaning) device.old (split_write (slot directory.old) (pairs_of (bytes_of page.now.good)) way.now.hash way.now.depth) (Ok tt) result device.new }
    ensures bit { OnOk result (directory.new ≡ slice_set directory.old (node way.now.hash way.now.depth / 8192) (with_bit (slot directory.old (node way.now.hash way.now.depth / 8192)) (node way.now.hash way.now.depth))) }
{
    let leaf = way.leaf();
    let upper = leaf.page + (1 << leaf.depth);
    let mut half = [0; BLOCK];
    keep(page, leaf.depth + 1, upper, &mut half)?;
    device.write(DIRECTORY_BLOCKS + upper, &half)?;
    let block = &mut directory[(leaf.index / BITS) as usize];
    set_bit(block, leaf.index % BITS);
    device.write(leaf.index / BITS, block)?;
    keep(page, leaf.depth + 1, leaf.page, &mut half)?;
    device.write(DIRECTORY_BLOCKS + leaf.page, &half)
}

// Sets bit i of a directory block.
fn set_bit(block: &mut [u8; BLOCK], i: u32)
    requires { i < 8192 }
    ensures { block.new ≡ with_bit block.old i }
{
    block[(i / 8) as usize] |= 1 << (i % 8);
}
