// The pairs of a page, and a page of pairs.
use crate::model::blocks::{BLOCK, number_at, put_bytes, put_number};
use pages::Place;

// The pairs of a page have at most so many places.
const MOST_PAIRS: usize = 255;

// A pair on a page: its value, its key, and the byte after them.
#[derive(Clone, Copy, Default)]
pub struct Pair {
    value: usize,
    key: usize,
    end: usize,
}

impl Pair {
    pub fn key_of<'a>(&self, page: &'a [u8]) -> &'a [u8] {
        part(page, self.key, self.end)
    }

    pub fn value_of<'a>(&self, page: &'a [u8]) -> &'a [u8] {
        part(page, self.value, self.key)
    }

    pub fn key_place(&self) -> Place {
        place(self.key, self.end)
    }

    pub fn value_place(&self) -> Place {
        place(self.value, self.key)
    }
}

// The pairs of a page, in order.
#[derive(Clone, Copy)]
pub struct Pairs {
    count: usize,
    pairs: [Pair; MOST_PAIRS],
}

impl Pairs {
    pub fn as_slice(&self) -> &[Pair] {
        self.pairs.get(..self.count).unwrap_or(&[])
    }
}

// The pairs of a page, if it is a good one.
pub fn pairs_of(page: &[u8; BLOCK]) -> Option<Pairs> {
    let n = number_at(page, 0);
    if n % 2 != 0 || n > 510 {
        return None;
    }
    let mut found = Pairs {
        count: n / 2,
        pairs: [Pair::default(); MOST_PAIRS],
    };
    let mut end = BLOCK;
    for (i, pair) in found.pairs.iter_mut().enumerate() {
        if i >= n / 2 {
            break;
        }
        let at = i.saturating_mul(4);
        let key = number_at(page, at.saturating_add(2));
        let value = number_at(page, at.saturating_add(4));
        if key >= end || value > key {
            return None;
        }
        *pair = Pair { value, key, end };
        end = value;
    }
    if n > 0 && end < n.saturating_add(1).saturating_mul(2) {
        return None;
    }
    if has_twice(page, found.as_slice()) {
        return None;
    }
    Some(found)
}

// Whether a key occurs twice.
fn has_twice(page: &[u8; BLOCK], pairs: &[Pair]) -> bool {
    pairs.iter().enumerate().any(|(i, pair)| {
        pairs
            .iter()
            .take(i)
            .any(|other| other.key_of(page) == pair.key_of(page))
    })
}

fn part(page: &[u8], from: usize, to: usize) -> &[u8] {
    page.get(from..to).unwrap_or(&[])
}

// A place from one byte of a page up to another.
fn place(from: usize, to: usize) -> Place {
    let len = to.saturating_sub(from);
    (
        u16::try_from(from).unwrap_or(u16::MAX),
        u16::try_from(len).unwrap_or(u16::MAX),
    )
}

// The part of a page at a place.
pub fn at_place(page: &[u8], place: Place) -> &[u8] {
    let from = usize::from(place.0);
    part(page, from, from.saturating_add(usize::from(place.1)))
}

// A key and its value.
#[derive(Drop)]
pub struct Entry {
    pub key: Vec<u8>,
    pub value: Vec<u8>,
}

// A page on which pairs are packed, one after another.
#[derive(Clone, Copy)]
pub struct Packer {
    pub bytes: [u8; BLOCK],
    offsets: usize,
    end: usize,
}

impl Packer {
    // No pair yet. What the bytes are matters only where the free middle of the page will be.
    pub fn new(bytes: [u8; BLOCK]) -> Packer {
        let mut packer = Packer {
            bytes,
            offsets: 0,
            end: BLOCK,
        };
        put_number(&mut packer.bytes, 0, 0);
        packer
    }

    // One more pair, for which there has to be room.
    pub fn add(&mut self, key: &[u8], value: &[u8]) {
        for part in [key, value] {
            self.end = self.end.saturating_sub(part.len());
            self.offsets = self.offsets.saturating_add(1);
            put_bytes(&mut self.bytes, self.end, part);
            put_number(&mut self.bytes, self.offsets.saturating_mul(2), self.end);
        }
        put_number(&mut self.bytes, 0, self.offsets);
    }
}
