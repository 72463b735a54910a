// The devices at the bottom of a stack.
use crate::model::blocks::{BLOCK, Numbered, put_bytes};
use crate::model::tree::PAGES;
use crate::random::Random;
use devices::Device;
use flat::Flat;
use slotted::Slotted;
use std::alloc::{AllocError, Global};

// An image, and what the device on it has to be.
#[derive(Drop)]
pub struct Image {
    pub bytes: Vec<u8>,
    pub limit: u32,
    pub held: Vec<u32>,
    pub left: u32,
}

pub trait Bottom: Device + Drop {
    fn name() -> &'static str;

    // Databases that do not start blank have pages below this number.
    fn pages() -> u32;

    // An image with these blocks, and room for others. A stale one has other bytes there.
    fn image(random: &mut Random, blocks: &[Numbered]) -> Result<Image, AllocError>;

    // The device on an image.
    fn open(heap: Global, image: Vec<u8>) -> Result<Self, AllocError>;

    // The image, again.
    fn close(self) -> Vec<u8>;
}

impl Bottom for Flat {
    fn name() -> &'static str {
        "flat"
    }

    fn pages() -> u32 {
        80
    }

    // Blocks that are not given are zeros. After the last one there may be a part of another.
    fn image(random: &mut Random, blocks: &[Numbered]) -> Result<Image, AllocError> {
        let end = blocks
            .iter()
            .map(|block| block.number.saturating_add(1))
            .max()
            .unwrap_or(0);
        let more = match random.below(8) {
            0 => random.below(7),
            1..=4 => random.below(60).saturating_add(8),
            5..=6 => random.below(300).saturating_add(60),
            _ => 1030,
        };
        let limit = end.saturating_add(more);
        let mut bytes = vec![in random.heap; 0u8; BLOCK.saturating_mul(limit as usize)]?;
        for block in blocks {
            let at = BLOCK.saturating_mul(block.number as usize);
            put_bytes(bytes.as_mut_slice(), at, &block.first_bytes());
        }
        if random.one_in(3) {
            let part = random.bytes(500)?;
            bytes.extend_from_slice(part.as_slice())?;
        }
        Ok(Image {
            bytes,
            limit,
            held: (0..limit).collect(random.heap)?,
            left: 0,
        })
    }

    fn open(_heap: Global, image: Vec<u8>) -> Result<Flat, AllocError> {
        Ok(Flat::new(image))
    }

    fn close(self) -> Vec<u8> {
        self.into_bytes()
    }
}

impl Bottom for Slotted {
    fn name() -> &'static str {
        "slotted"
    }

    fn pages() -> u32 {
        PAGES
    }

    // Used records, and free ones.
    fn image(random: &mut Random, blocks: &[Numbered]) -> Result<Image, AllocError> {
        let mut bytes = Vec::new(random.heap);
        let mut held = Vec::new(random.heap);
        for block in blocks {
            bytes.extend_from_slice(b"SD")?;
            bytes.extend_from_slice(&block.number.to_le_bytes())?;
            bytes.extend_from_slice(&block.first_bytes())?;
            held.push(block.number)?;
        }
        let left = match random.below(8) {
            0 => random.below(4),
            1..=3 => random.below(20).saturating_add(4),
            _ => random.below(100).saturating_add(20),
        };
        for _ in 0..left {
            bytes.extend_from_slice(&[0; 1030])?;
        }
        Ok(Image {
            bytes,
            limit: 65_544,
            held,
            left,
        })
    }

    fn open(heap: Global, image: Vec<u8>) -> Result<Slotted, AllocError> {
        Ok(Slotted::open(heap, image)?)
    }

    fn close(self) -> Vec<u8> {
        self.into_bytes()
    }
}
