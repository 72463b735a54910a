// The directory: which page a hash belongs to.
#![tactic(auto)]

pub mod way;

ghost use Rattle.std.specs.Prelude.{◌≡◌, ◌+◌, ◌<◌, ◌≤◌, min, Decides, ◌==◌};
ghost use Rattle.directory.specs.Tree.{BitOnWay, bit, bits_of, child, depth_of, index_of, low, node, page_of, Reachable};
ghost use Rattle.directory.specs.Ending.{leaf_of};
ghost use Rattle.directory.specs.Laws.{EndsThere, EndsOnce, IndexOnWay, WayGoesDown, WaysPart, IndexBelow, PageBelow};
ghost use Rattle.directory.specs.Laws.{PageReachable, Home, SplitPage};

use way::Way;

// No lookup goes deeper.
const MAX_DEPTH: u32 = 15;

// How many bits of the directory count. Its last bit, in 4,096 bytes, is spare.
const BITS: u32 = 32_767;

// Where the lookup of a hash ends.
#[derive(Clone, Copy, PartialEq, Eq, Debug)]
pub struct Leaf {
    // the bit at which it ends; at depth 15 there is none, and this is past the last
    pub index: u32,
    pub depth: u32,
    pub page: u32,
}

impl Leaf {
    // Whether a pair with this hash is at home on the leaf's page, without a look at the directory.
    pub fn is_home(&self, hash: u32) -> bool
        ensures { result ≡ (low hash self.now.depth == self.now.page) }
    {
        low_bits(hash, self.depth) == self.page
    }
}

impl Way {
    // At the root.
    pub fn new(hash: u32) -> Way
        ensures { (result.hash ≡ hash) × (result.depth ≡ 0) }
    {
        Way {
            hash,
            index: 0,
            depth: 0,
        }
    }

    // The bit that says whether the lookup goes on; at depth 15 there is none.
    pub fn bit(&self) -> Option<u32>
        ensures { BitOnWay self.now.hash self.now.depth result }
    {
        if self.depth < MAX_DEPTH {
            Some(self.index)
        } else {
            None
        }
    }

    // One level down, to the index that the next hash bit names. At depth 15 it stays.
    pub fn go_down(&mut self)
        ensures { (self.new.hash ≡ self.old.hash) × (self.new.depth ≡ min (self.old.depth + 1) 15) }
    {
        if self.depth < MAX_DEPTH {
            self.index = next_index(self.index, self.hash, self.depth);
            self.depth += 1;
        }
    }

    // Where a lookup is that ends here.
    pub fn leaf(&self) -> Leaf
        ensures { result ≡ record { index = node self.now.hash self.now.depth; depth = self.now.depth; page = low self.now.hash self.now.depth } }
    {
        Leaf {
            index: self.index,
            depth: self.depth,
            page: low_bits(self.hash, self.depth),
        }
    }
}

// The index under an index that hash bit number `depth` names.
fn next_index(index: u32, hash: u32, depth: u32) -> u32
    requires { (index < 32767) × (depth < 15) }
    ensures { result ≡ child index (bit hash depth) }
{
    if (hash >> depth) & 1 == 0 {
        2 * index + 1
    } else {
        2 * index + 2
    }
}

// Looks a hash up in the directory's bytes. A directory cut short counts as filled up with zeros.
pub fn look_up(dir: &[u8], hash: u32) -> Leaf
    ensures index { result.index ≡ index_of (bits_of dir.now) hash }
    ensures depth { result.depth ≡ depth_of (bits_of dir.now) hash }
    ensures page { result.page ≡ page_of (bits_of dir.now) hash }
    ensures limit { result.depth ≤ 15 }
    ensures leaf { result ≡ leaf_of (bits_of dir.now) hash }
{
    let mut way = Way::new(hash);
    while way.bit().is_some_and(|i| is_set(dir, i)) {
        way.go_down();
    }
    way.leaf()
}

// Whether some lookup ends at the page: the lookup of the page's own number does then.
pub fn is_reachable(dir: &[u8], page: u32) -> bool
    ensures { Decides result (Reachable (bits_of dir.now) page) }
{
    look_up(dir, page).page == page
}

// Whether bit i is set, in the directory's bytes or in those of one of its blocks.
pub fn is_set(dir: &[u8], i: u32) -> bool
    ensures { result ≡ bits_of dir.now i }
{
    i < BITS
        && dir
            .get((i / 8) as usize)
            .is_some_and(|byte| (byte >> (i % 8)) & 1 == 1)
}

// The low n bits of a hash: all of it from 32 on.
pub fn low_bits(hash: u32, n: u32) -> u32
    ensures { result ≡ low hash n }
{
    if n < 32 { hash & ((1 << n) - 1) } else { hash }
}

// The laws of the directory, for every directory and every hash. There is nothing to run: the contract is the point.
pub fn directory_laws()
    ensures ends { EndsThere }
    ensures once { EndsOnce }
    ensures index { IndexOnWay }
    ensures way { WayGoesDown }
    ensures apart { WaysPart }
    ensures indexes { IndexBelow }
    ensures pages { PageBelow }
    ensures reachable { PageReachable }
    ensures home { Home }
    ensures split { SplitPage }
{}
