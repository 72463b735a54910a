// Makes the two files of a database of the pairs that are given on standard input.
#![tactic(auto)]

mod image;
mod lines;

use image::{blank, files_of};
use lines::store_lines;
use std::io::Read;
use std::{env, fs};

// What is said to a command line that does not fit.
const USAGE: &str =
    "give two files to be made, and on standard input a line for each pair, a key and a value in hexadecimal with a space
between. A line with no space takes the key out again:
    make_image FILE.dir FILE.pag";

fn main(rt: HostRuntime) -> anyhow::Result<()> {
    run(&rt)
}

fn run(rt: &HostRuntime) -> anyhow::Result<()> {
    let mut words = env::args(rt)?.skip(1);
    let (Some(dir), Some(pag), None) = (words.next(), words.next(), words.next()) else {
        return Err(anyhow::anyhow!("{USAGE}"));
    };
    let mut text = Vec::new(rt.alloc());
    rt.stdin().read_to_end(&mut text)?;
    let flat = store_lines(rt, blank(rt.alloc())?, str::from_utf8(text.as_slice())?)?;
    let bytes = flat.into_bytes();
    let (directory, pages) = files_of(bytes.as_slice());
    fs::write(rt, dir.as_str(), directory)?;
    fs::write(rt, pag.as_str(), pages)?;
    Ok(())
}
