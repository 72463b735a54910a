// Random images for the device at the bottom.
use crate::random::Random;
use crate::store::{BLOCK, RECORD};
use std::alloc::AllocError;

// An image of whole blocks and a part of one, either of which may be missing.
pub fn flat_image(random: &mut Random) -> Result<Vec<u8>, AllocError> {
    let blocks = match random.below(8) {
        0 => 0,
        1 => 1,
        2 => 2,
        3 => 24,
        _ => random.below(28),
    };
    let part = match random.below(4) {
        0 => 1,
        1 => 1023,
        2 => random.below(1024),
        _ => 0,
    };
    random.bytes((blocks as usize * BLOCK).saturating_add(part as usize))
}

// An image of used records and free ones. One in three is spoiled.
pub fn slotted_image(random: &mut Random) -> Result<Vec<u8>, AllocError> {
    let mut image = Vec::new(random.heap);
    let start = random.below(20);
    for i in 0..random.below(14) {
        // 7 and 20 have no common divisor, so the numbers differ
        let number = start.saturating_add(i.saturating_mul(7)) % 20;
        push_used(random, &mut image, number)?;
    }
    if random.one_in(3) {
        push_used(random, &mut image, 65_543)?;
    }
    for _ in 0..random.below(14) {
        image.extend_from_slice(&[0, 0])?;
        let rest = random.bytes(RECORD - 2)?;
        image.extend_from_slice(rest.as_slice())?;
    }
    if random.one_in(3) {
        spoil(random, &mut image)?;
    }
    Ok(image)
}

// One more used record.
fn push_used(random: &mut Random, image: &mut Vec<u8>, number: u32) -> Result<(), AllocError> {
    image.extend_from_slice(b"SD")?;
    image.extend_from_slice(&number.to_le_bytes())?;
    let block = random.bytes(BLOCK)?;
    image.extend_from_slice(block.as_slice())
}

// Does something to an image that mostly leaves it not well-formed: a part of a record, a used record at the end, a number
// past the most, another mark or another number.
fn spoil(random: &mut Random, image: &mut Vec<u8>) -> Result<(), AllocError> {
    let records = u32::try_from(image.len() / RECORD).unwrap_or(0);
    let record = RECORD.saturating_mul(random.below(records) as usize);
    let byte = random.byte();
    match random.below(7) {
        0 => image.push(byte)?,
        1 => {
            let _ = image.pop();
        }
        2 => push_used(random, image, u32::from(byte) % 20)?,
        3 => push_used(random, image, 65_544)?,
        4 => set_byte(image, record, byte),
        5 => set_byte(image, record.saturating_add(1), b'D'),
        _ => set_byte(image, record.saturating_add(2), byte % 20),
    }
    Ok(())
}

fn set_byte(image: &mut Vec<u8>, at: usize, byte: u8) {
    if let Some(old) = image.get_mut(at) {
        *old = byte;
    }
}
