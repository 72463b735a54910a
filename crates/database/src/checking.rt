// Whether a bit is set under one of those that a store's splits would set.
ghost use Rattle.std.specs.Prelude.{◌+◌, ◌*◌, ◌<◌, ◌≤◌, ◌/◌, ◌∷◌, [], Ok, OnOk, ℕ};
ghost use Rattle.contents.specs.Blocks.{bits_in, blocks_of};
ghost use Rattle.calls.specs.Store.{Slots, bits_clear, clear_pair, under_calls, up_to};
ghost use Rattle.directory.specs.Tree.{node};
ghost use Rattle.lookup.specs.Made.{Made};
ghost use Rattle.lookup.specs.Reads.{another, blocks_of_bits, reads};

use devices::{BLOCK, Device};
use directory::is_set;
use directory::way::Way;
use faults::{Fault, Layer, Refusal};

// The directory's blocks, each in its slot once it was read.
pub(crate) type DirectoryBlocks = [[u8; BLOCK]; 4];

// How many bits a directory block has.
pub(crate) const BITS: u32 = 8192;

// Under the bits at this depth there are no others.
const LAST_DEPTH: u32 = 14;

// Tests the bits under those that so many splits from a way's end on would set; refused 7 where one is set. Afterwards the
// blocks of the bits to be set are in their slots.
pub(crate) fn check_under<D: Device>(
    device: &mut D,
    mut way: Way,
    splits: u32,
    directory: &mut DirectoryBlocks,
) -> Result<(), Fault>
    requires deep { way.depth + splits ≤ 15 }
    requires slot { 0 < splits → Slots (blocks_of (D.Device.meaning device.old)) directory.old (way.index / 8192) }
    ensures made { Made D.Device.steps D.Device.meaning device.old (λ blocks. under_calls (bits_in blocks) way.hash way.depth splits) (λ blocks. bits_clear (bits_in blocks) way.hash way.depth splits) result device.new }
    ensures read { OnOk result ((j : ℕ) → j < splits → Slots (blocks_of (D.Device.meaning device.old)) directory.new (node way.hash (way.depth + j) / 8192)) }
{
    let leaf = way.leaf();
    let mut last = leaf.index / BITS;
    for _ in 0..splits.min(LAST_DEPTH.saturating_sub(leaf.depth)) {
        let index = way.leaf().index;
        clear_under(device, index, last, directory)?;
        last = (2 * index + 2) / BITS;
        way.go_down();
    }
    Ok(())
}

// Tests the two bits under bit i, of which the second is tested only where the first is clear.
fn clear_under<D: Device>(
    device: &mut D,
    i: u32,
    last: u32,
    directory: &mut DirectoryBlocks,
) -> Result<(), Fault>
    requires range { 2 * i + 2 < 32767 }
    requires slot { Slots (blocks_of (D.Device.meaning device.old)) directory.old last }
    ensures made { Made D.Device.steps D.Device.meaning device.old (λ blocks. reads (blocks_of_bits last (up_to (bits_in blocks) ((2 * i + 1) ∷ (2 * i + 2) ∷ [])))) (λ blocks. clear_pair (bits_in blocks) i) result device.new }
    ensures read { OnOk result (Slots (blocks_of (D.Device.meaning device.old)) directory.new ((2 * i + 1) / 8192) × Slots (blocks_of (D.Device.meaning device.old)) directory.new ((2 * i + 2) / 8192)) }
    ensures kept { (b : ℕ) → Slots (blocks_of (D.Device.meaning device.old)) directory.old b → Slots (blocks_of (D.Device.meaning device.old)) directory.new b }
{
    let refused = Layer::Database.fault(Refusal::BitBelow, i / BITS);
    if is_set_in(device, 2 * i + 1, last, directory)? {
        return Err(refused);
    }
    if is_set_in(device, 2 * i + 2, (2 * i + 1) / BITS, directory)? {
        return Err(refused);
    }
    Ok(())
}

// Whether bit i is set, by its block, which is then in its slot.
fn is_set_in<D: Device>(
    device: &mut D,
    i: u32,
    last: u32,
    directory: &mut DirectoryBlocks,
) -> Result<bool, Fault>
    requires range { i < 32767 }
    requires slot { Slots (blocks_of (D.Device.meaning device.old)) directory.old last }
    ensures made { Made D.Device.steps D.Device.meaning device.old (λ blocks. reads (another last (i / 8192))) (λ blocks. Ok (bits_in blocks i)) result device.new }
    ensures read { OnOk result (Slots (blocks_of (D.Device.meaning device.old)) directory.new (i / 8192)) }
    ensures kept { (b : ℕ) → Slots (blocks_of (D.Device.meaning device.old)) directory.old b → Slots (blocks_of (D.Device.meaning device.old)) directory.new b }
{
    turn_to_slot(device, i / BITS, last, directory)?;
    Ok(is_set(&directory[(i / BITS) as usize], i % BITS))
}

// Reads block n into its slot, unless it is the one that was read last.
fn turn_to_slot<D: Device>(
    device: &mut D,
    n: u32,
    last: u32,
    directory: &mut DirectoryBlocks,
) -> Result<(), Fault>
    requires range { n < 4 }
    requires slot { Slots (blocks_of (D.Device.meaning device.old)) directory.old last }
    ensures made { Made D.Device.steps D.Device.meaning device.old (λ blocks. reads (another last n)) (λ blocks. Ok tt) result device.new }
    ensures read { OnOk result (Slots (blocks_of (D.Device.meaning device.old)) directory.new n) }
    ensures kept { (b : ℕ) → Slots (blocks_of (D.Device.meaning device.old)) directory.old b → Slots (blocks_of (D.Device.meaning device.old)) directory.new b }
{
    if n == last {
        return Ok(());
    }
    device.read(n, &mut directory[n as usize])
}
