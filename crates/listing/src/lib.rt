// What a support engineer is told of two files: their state, their pairs, and the values of names.
#![tactic(auto)]

mod files;
mod lister;
mod reading;
mod stacks;
pub mod text;
mod wanted;

use files::{tell_directory, tell_missing, tell_pages};
use image::joined_within;
pub use stacks::Layers;
use stacks::list_over;
use std::fs;
use std::io::Write;

// What is asked: two files, what the image that they make is read through, and what is told of it besides its pairs.
#[derive(Clone, Copy)]
pub struct Request<'a> {
    pub dir: &'a str,
    pub pag: &'a str,
    pub layers: Layers,
    // Whether the listing of the pairs goes on past a page that is refused.
    pub go_on: bool,
    // Names of which the values are told, as bytes or as records of a kind: one on a line.
    pub names: &'a [u8],
    pub symbols: &'a [u8],
    pub members: &'a [u8],
}

// Tells of two files and of the names, whatever is in them.
pub fn list<W: Write>(rt: &HostRuntime, out: &mut W, request: &Request) -> anyhow::Result<()> {
    let dir = fs::read(rt, request.dir).ok();
    let pag = fs::read(rt, request.pag).ok();
    tell_directory(out, request.dir, dir.as_deref())?;
    tell_pages(out, request.pag, pag.as_deref())?;
    // A file that cannot be read counts as empty.
    let dir = dir.unwrap_or(Vec::new(rt.alloc()));
    let pag = pag.unwrap_or(Vec::new(rt.alloc()));
    tell_missing(out, request.pag, dir.as_slice(), pag.as_slice())?;
    let image = joined_within(dir, pag)?;
    list_over(rt.alloc(), out, request, image)
}
