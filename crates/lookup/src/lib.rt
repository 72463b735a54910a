// The lookup of a hash in the directory of a device, and the page at which it ends.
#![tactic(auto)]

ghost use Rattle.std.specs.Prelude.{◌≡◌, ◌+◌, ◌/◌, ◌%◌, ◌<◌, ◌∷◌, [], Ok, OnOk, IfOk, List};
ghost use Rattle.contents.specs.Blocks.{bits_in, blocks_of, page_in};
ghost use Rattle.directory.specs.Ending.{leaf_of};
ghost use Rattle.directory.specs.Tree.{depth_of, index_of, page_of};
ghost use Rattle.lookup.specs.Made.{Made};
ghost use Rattle.lookup.specs.Pages.{GoodPage};
ghost use Rattle.lookup.specs.Reads.{another, home_calls, lookup_calls, reads};

use devices::{BLOCK, Device};
use directory::way::Way;
use directory::{Leaf, is_set};
use faults::{Fault, Layer, Refusal};
use pages::PairPage;

// How many blocks the directory takes, and how many bits each has.
pub const DIRECTORY_BLOCKS: u32 = 4;

const BITS: u32 = 8192;

// Looks a hash up. The buffer is for the directory's blocks: afterwards it has that of the bit at which the lookup ended.
pub fn look_up<D: Device>(device: &mut D, hash: u32, block: &mut [u8; BLOCK]) -> Result<Leaf, Fault>
    ensures made { Made D.Device.steps D.Device.meaning device.old (λ blocks. lookup_calls blocks hash) (λ blocks. Ok (leaf_of (bits_in blocks) hash)) result device.new }
    ensures block { OnOk result (depth_of (bits_in (blocks_of (D.Device.meaning device.old))) hash < 15 → block.new ≡ blocks_of (D.Device.meaning device.old) (index_of (bits_in (blocks_of (D.Device.meaning device.old))) hash / 8192)) }
{
    device.read(0, block)?;
    let mut last = 0;
    let mut way = Way::new(hash);
    while let Some(i) = way.bit() {
        if !is_set_on(device, i, last, block)? {
            break;
        }
        last = i / BITS;
        way.go_down();
    }
    Ok(way.leaf())
}

// Looks a hash up, and reads the page at which the lookup ends into the buffer.
pub fn read_home<D: Device>(
    device: &mut D,
    hash: u32,
    block: &mut [u8; BLOCK],
) -> Result<Leaf, Fault>
    ensures made { Made D.Device.steps D.Device.meaning device.old (λ blocks. home_calls blocks hash) (λ blocks. Ok (leaf_of (bits_in blocks) hash)) result device.new }
    ensures page { OnOk result (block.new ≡ page_in (blocks_of (D.Device.meaning device.old)) (page_of (bits_in (blocks_of (D.Device.meaning device.old))) hash)) }
{
    let leaf = look_up(device, hash, block)?;
    device.read(DIRECTORY_BLOCKS + leaf.page, block)?;
    Ok(leaf)
}

// The bytes of a block as a page, if they are a good one; refused 6 otherwise.
pub fn good_page(bytes: &[u8], block: u32) -> Result<PairPage, Fault>
    ensures { GoodPage bytes.now block result }
{
    PairPage::check(bytes).ok_or(Layer::Database.fault(Refusal::BadPage, block))
}

// Whether bit i is set. The buffer has directory block `last`; where the bit lies in another, that one is read.
fn is_set_on<D: Device>(
    device: &mut D,
    i: u32,
    last: u32,
    block: &mut [u8; BLOCK],
) -> Result<bool, Fault>
    requires range { i < 32767 }
    requires last { block.old ≡ blocks_of (D.Device.meaning device.old) last }
    ensures made { Made D.Device.steps D.Device.meaning device.old (λ blocks. reads (another last (i / 8192))) (λ blocks. Ok (bits_in blocks i)) result device.new }
    ensures block { OnOk result (block.new ≡ blocks_of (D.Device.meaning device.old) (i / 8192)) }
{
    turn_to(device, i / BITS, last, block)?;
    Ok(is_set(block, i % BITS))
}

// Reads block n, unless it is the one that the buffer has.
fn turn_to<D: Device>(
    device: &mut D,
    n: u32,
    last: u32,
    block: &mut [u8; BLOCK],
) -> Result<(), Fault>
    requires range { n < 4 }
    requires last { block.old ≡ blocks_of (D.Device.meaning device.old) last }
    ensures made { Made D.Device.steps D.Device.meaning device.old (λ blocks. reads (another last n)) (λ blocks. Ok tt) result device.new }
    ensures block { OnOk result (block.new ≡ blocks_of (D.Device.meaning device.old) n) }
{
    if n == last {
        return Ok(());
    }
    device.read(n, block)
}
