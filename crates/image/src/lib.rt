// The two files of a database as one image: the blocks of a flat device.
#![tactic(auto)]

ghost use Rattle.std.specs.Prelude.{◌≡◌, IfOk};
ghost use Rattle.image.specs.Files.{NextReachable, joined};
ghost use Rattle.image.specs.Laws.{FilesShown};

use directory::is_reachable;
use std::alloc::{AllocError, Global};

// How many bytes of an image the directory takes, and how many pages a database may have.
pub const DIRECTORY: usize = 4096;

pub const PAGES: u32 = 32_768;

// The directory's bytes, filled up with zeros or cut, and then the bytes of the pages, whatever they are.
pub fn joined(heap: Global, dir: &[u8], pag: &[u8]) -> Result<Vec<u8>, AllocError>
    ensures { IfOk result (λ image. image.items ≡ joined dir.now pag.now) }
{
    let mut image = dir.to_vec(heap)?;
    image.resize(DIRECTORY, 0)?;
    image.extend_from_slice(pag)?;
    Ok(image)
}

// The same image, made in the bytes of the pages, so that they are held once.
pub fn joined_within(mut dir: Vec<u8>, mut pag: Vec<u8>) -> Result<Vec<u8>, AllocError>
    ensures { IfOk result (λ image. image.items ≡ joined dir.items pag.items) }
{
    dir.resize(DIRECTORY, 0)?;
    pag.reserve_exact(DIRECTORY)?;
    pag.splice(0..0, dir)?;
    Ok(pag)
}

// The first page from a number on at which some lookup ends.
pub fn reachable_from(dir: &[u8], page: u32) -> Option<u32>
    ensures { NextReachable dir.now page result }
{
    (page..PAGES).find(|p| is_reachable(dir, *p))
}

// What a flat device of an image shows of the two files. There is nothing to run: the contract is the point.
pub fn image_laws()
    ensures { FilesShown }
{}
