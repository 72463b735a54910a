// The frames of a cache.
ghost use Rattle.std.specs.Prelude.{◌≡◌, ◌<◌, ◌≤◌, ◌↔◌, [], ◌∷◌, ◌++◌, length, drop, set, IsTrue};
ghost use Rattle.cache.specs.Whole.{Whole, at};

use devices::BLOCK;

// How many frames a cache has.
pub(crate) const FRAMES: usize = 8;

// A block that was written to the cache, with its number.
#[derive(Clone, Copy)]
pub struct Frame {
    pub(crate) number: u32,
    pub(crate) block: [u8; BLOCK],
}

impl Frame {
    // The frame for these bytes, of which a block has so many.
    pub(crate) fn new(number: u32, bytes: &[u8]) -> Frame
        requires { length bytes.now ≡ BLOCK }
        ensures { result ≡ record { number = number; block = bytes.now } }
    {
        let mut block = [0; BLOCK];
        block.copy_from_slice(bytes);
        Frame { number, block }
    }
}

// Room for eight frames.
#[derive(Drop)]
pub struct Table {
    pub(crate) frames: [Frame; FRAMES],
    ghost whole: { Whole frames },
}

impl Table {
    pub(crate) fn new() -> Table {
        Table {
            frames: [Frame {
                number: 0,
                block: [0; BLOCK],
            }; FRAMES],
        }
    }

    pub(crate) fn frame(&self, place: usize) -> &Frame
        requires { place < FRAMES }
        ensures { result.now ≡ at self.now.frames place }
    {
        &self.frames[place]
    }

    // One frame is overwritten, and the seven others stay.
    pub(crate) fn put(&mut self, place: usize, frame: Frame)
        requires { place < FRAMES }
        ensures table { self.new.frames ≡ set self.old.frames place frame }
        ensures size { length self.old.frames ≡ FRAMES }
    {
        self.frames[place] = frame;
    }
}

// The frames in use: `count` of them, oldest first, from place `start` of the table on, and from its end back to place 0.
// A ring by hand: the library's is on the heap, and taking the first of its fixed vector moves the seven others.
// Without a model: one hides the fields, and `limit` promises whole blocks, which only the table's say.
#[derive(Drop)]
pub struct Queue {
    pub(crate) table: Table,
    pub(crate) start: usize,
    pub(crate) count: usize,
    ghost inside: { start < 8 },
    ghost room: { count ≤ 8 },
}

// So many frames are in use as are counted, which most of these proofs need.
#[tactic(auto, using(crate::proofs::Rings::length_ring))]
impl Queue {
    ghost use Rattle.cache.specs.After.{without};
    ghost use Rattle.cache.specs.InUse.{Newest, in_use, newest};

    pub(crate) fn new() -> Queue
        ensures { in_use result ≡ [] }
    {
        Queue {
            table: Table::new(),
            start: 0,
            count: 0,
        }
    }

    pub(crate) fn len(&self) -> usize
        ensures { (result ≡ length (in_use self.now)) × (result ≤ FRAMES) }
    {
        self.count
    }

    pub(crate) fn is_empty(&self) -> bool
        ensures { IsTrue result ↔ (length (in_use self.now) ≡ 0) }
    {
        self.count == 0
    }

    // The frame of an age: 0 is the oldest.
    pub(crate) fn frame(&self, age: usize) -> &Frame
        requires { age < length (in_use self.now) }
        ensures { result.now ≡ at (in_use self.now) age }
    {
        self.table.frame((self.start + age) % FRAMES)
    }

    // Where the newest frame numbered n is.
    pub(crate) fn find(&self, n: u32) -> Option<usize>
        ensures place { result ≡ newest (in_use self.now) n }
        ensures words { Newest (in_use self.now) n result }
    {
        // A loop: in a closure for `find` it did not prove that each place is in use.
        for age in (0..self.count).rev() {
            if self.frame(age).number == n {
                return Some(age);
            }
        }
        None
    }

    // The frame at one place is overwritten. It is as old as before, and the others stay.
    pub(crate) fn overwrite(&mut self, age: usize, frame: Frame)
        requires { age < length (in_use self.old) }
        ensures { in_use self.new ≡ set (in_use self.old) age frame }
    {
        let place = (self.start + age) % FRAMES;
        self.table.put(place, frame);
    }

    // A free frame is taken, as the newest.
    pub(crate) fn push(&mut self, frame: Frame)
        requires { length (in_use self.old) < FRAMES }
        ensures { in_use self.new ≡ in_use self.old ++ frame ∷ [] }
    {
        let place = (self.start + self.count) % FRAMES;
        self.table.put(place, frame);
        self.count += 1;
    }

    // The oldest frame is freed.
    pub(crate) fn pop(&mut self)
        requires { 0 < length (in_use self.old) }
        ensures { in_use self.new ≡ drop 1 (in_use self.old) }
    {
        self.start = (self.start + 1) % FRAMES;
        self.count -= 1;
    }

    // The frames numbered n are freed. There are hardly ever any, so only the search for one has to be fast.
    pub(crate) fn forget(&mut self, n: u32)
        ensures { in_use self.new ≡ without (in_use self.old) n }
    {
        if self.find(n).is_none() {
            return;
        }
        // By age: where the ring goes round, the frames in use are no slice.
        let mut kept = Queue::new();
        for age in 0..self.len() {
            let frame = *self.frame(age);
            if frame.number != n {
                kept.push(frame);
            }
        }
        *self = kept;
    }
}
