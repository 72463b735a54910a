ghost use Rattle.std.specs.Prelude.{◌≡◌, ◌+◌, ◌-◌, ◌<◌, ◌≤◌, ◌==◌, ◌&&◌, nat_lt, length, Ok, OnOk};
ghost use Rattle.contents.specs.Blocks.{bits_in, blocks_of};
ghost use Rattle.contents.specs.Contents.{contents_of};
ghost use Rattle.calls.specs.Fetch.{BufferHas};
ghost use Rattle.calls.specs.Shown.{ShowsNext};
ghost use Rattle.calls.specs.Step.{calls_from, first_home, last_page, page_from, step_calls, step_from, step_page, stepped, visit_calls, visited};
ghost use Rattle.directory.specs.Tree.{low};
ghost use Rattle.keys.specs.Hash.{hash};
ghost use Rattle.lookup.specs.Made.{Made};
ghost use Rattle.pages.specs.Blank.{bytes_of};
ghost use Rattle.pages.specs.Page.{key_of, pairs};

use crate::Database;
use calls::{Position, Stepped};
use devices::{BLOCK, Device};
use directory::Leaf;
use faults::{Fault, Layer, Refusal};
use keys::hash_of;
use lookup::{DIRECTORY_BLOCKS, good_page, look_up};
use pages::{PairPage, Place};

// How many pages a database may have.
pub const PAGES: u32 = 32_768;

impl<D: Device> Database<D> {
    // The first pair at or after a position, whose page is then in the caller's buffer.
    pub fn step(&mut self, at: Position, page: &mut [u8]) -> Result<Stepped, Fault>
        ensures made { Made D.Device.steps D.Device.meaning self.old.device (λ blocks. step_calls blocks at (length page.old)) (λ blocks. stepped blocks at (length page.old)) result self.new.device }
        ensures page { BufferHas result (step_page (blocks_of (D.Device.meaning self.old.device)) at page.old) page.old page.new }
        ensures shows { ShowsNext (contents_of (blocks_of (D.Device.meaning self.old.device))) at result page.new }
    {
        let Some(buffer) = page.as_mut_array::<BLOCK>() else {
            return Err(Layer::Database.fault(Refusal::NotABlock, 0));
        };
        let mut block = *buffer;
        let answer = self.search(at, &mut block)?;
        *buffer = block;
        Ok(answer)
    }

    // Visits the pages from a position on, one after another, until one has a pair to show.
    fn search(&mut self, at: Position, block: &mut [u8; BLOCK]) -> Result<Stepped, Fault>
        ensures made { Made D.Device.steps D.Device.meaning self.old.device (λ blocks. calls_from blocks (32768 - at.0) at.0 at.1) (λ blocks. step_from blocks (32768 - at.0) at.0 at.1) result self.new.device }
        ensures page { OnOk result (block.new ≡ page_from (blocks_of (D.Device.meaning self.old.device)) (32768 - at.0) at.0 at.1 block.old) }
    {
        let mut directory = [0; BLOCK];
        let (first, mut number) = at;
        for p in first..PAGES {
            if let Some(pair) = self.visit(p, number, &mut directory, block)? {
                return Ok(Stepped::Pair(pair));
            }
            number = 0;
        }
        Ok(Stepped::End)
    }

    // The first pair at home on a page from a number on. A page at which no lookup ends is not read.
    fn visit(
        &mut self,
        p: u32,
        number: u32,
        directory: &mut [u8; BLOCK],
        block: &mut [u8; BLOCK],
    ) -> Result<Option<(Place, Place, Position)>, Fault>
        requires { p < 32768 }
        ensures made { Made D.Device.steps D.Device.meaning self.old.device (λ blocks. visit_calls blocks p) (λ blocks. visited blocks p number) result self.new.device }
        ensures page { OnOk result (block.new ≡ last_page (blocks_of (D.Device.meaning self.old.device)) p block.old) }
    {
        let leaf = look_up(&mut self.device, p, directory)?;
        if leaf.page != p {
            return Ok(None);
        }
        let n = DIRECTORY_BLOCKS + p;
        self.device.read(n, block)?;
        let page = good_page(block, n)?;
        Ok(first_home(&page, &leaf, number))
    }
}

// The first pair from a number on whose hash belongs to the leaf.
fn first_home(page: &PairPage, leaf: &Leaf, number: u32) -> Option<(Place, Place, Position)>
    ensures { result ≡ first_home (λ key. low (hash key) leaf.now.depth == leaf.now.page) (bytes_of page.now.good) leaf.now.page number }
{
    let i = (number as usize..page.count()).find(|i| is_home(page, leaf, *i))?;
    let (key, value) = page.pair(i)?;
    Some((key, value, (leaf.page, i as u32 + 1)))
}

// Whether the hash of pair i belongs to the leaf, and there is such a pair.
fn is_home(page: &PairPage, leaf: &Leaf, i: usize) -> bool
    ensures { result ≡ (nat_lt i (pairs (bytes_of page.now.good)) && (low (hash (key_of (bytes_of page.now.good) i)) leaf.now.depth == leaf.now.page)) }
{
    let Some((key, _)) = page.parts(i) else {
        return false;
    };
    leaf.is_home(hash_of(key))
}
