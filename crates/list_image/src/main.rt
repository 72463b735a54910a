// Lists the database in two files, and looks names up in it.
#![tactic(auto)]

mod options;

use listing::{Request, list};
use options::Options;
use std::io::{BufWriter, Read, Write};
use std::{env, io};

// What is said to a command line that does not fit: the options, and then, as the error, what has to be given. An error keeps
// 120 bytes of its text.
const USAGE: &str =
    "list_image [--window] [--quota] [--cache] [--go-on] [--symbol=NAME].. [--member=NAME].. FILE.dir FILE.pag";

const FILES: &str = "give two files: list_image FILE.dir FILE.pag, and names on standard input";

fn main(rt: HostRuntime) -> anyhow::Result<()> {
    run(&rt)
}

fn run(rt: &HostRuntime) -> anyhow::Result<()> {
    let mut options = Options::new(rt.alloc());
    for word in env::args(rt)?.skip(1) {
        options.take(word)?;
    }
    let (Some(dir), Some(pag), true) = (&options.dir, &options.pag, options.fits) else {
        eprintln!(rt; "usage: {USAGE}")?;
        return Err(anyhow::anyhow!("{FILES}"));
    };
    let mut names = Vec::new(rt.alloc());
    rt.stdin().read_to_end(&mut names)?;
    let request = Request {
        dir: dir.as_str(),
        pag: pag.as_str(),
        layers: options.layers,
        go_on: options.go_on,
        names: names.as_slice(),
        symbols: options.symbols.as_slice(),
        members: options.members.as_slice(),
    };
    // Without a buffer each piece of a line would be a write of its own. What was told before an error goes out too.
    let mut out = BufWriter::new(rt.alloc(), io::writer(rt))?;
    let told = list(rt, &mut out, &request);
    out.flush()?;
    told
}
