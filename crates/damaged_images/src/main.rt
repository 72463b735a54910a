// What the lister tells of damaged copies of the sample, and that it tells the same whatever stands on the image.
#![tactic(auto)]

use listing::{Layers, Request, list};
use std::alloc::AllocError;

// The damaged copies, as data/make-damaged.py makes them; of the last there are no files.
const COPIES: [&str; 10] = [
    "whole",
    "cut",
    "short_dir",
    "long_dir",
    "bad_page",
    "twice",
    "stray",
    "empty",
    "random",
    "absent",
];

// A symbol, a library member, a stray and a name that is nowhere.
const NAMES: &[u8] = b"main\nlibc_memcpy.o/\nstray_label\nno_such_name\n";

// Copies of which more is told: what lies past refused pages, and records: of each kind one, one of another kind, a value that
// is none, and a name that is nowhere.
const MORE: [&str; 2] = ["cut", "bad_page"];

const SYMBOLS: &[u8] = b"main\nhard_fault_handler\nuart0_isr\nlibc_memcpy.o/\n";

const MEMBERS: &[u8] = b"README/\ncrt0.o/\n__dso_handle\nmain\nno_such_name\n";

// The stacks that are compared with the flat device alone: each layer, and a cache on a quota on a window.
const STACKS: [Layers; 4] = [
    Layers {
        window: true,
        quota: false,
        cache: false,
    },
    Layers {
        window: false,
        quota: true,
        cache: false,
    },
    Layers {
        window: false,
        quota: false,
        cache: true,
    },
    Layers {
        window: true,
        quota: true,
        cache: true,
    },
];

// How many listings over other stacks were the same, and how many were not.
#[derive(Clone, Copy, Default)]
struct Tally {
    same: usize,
    different: usize,
}

// Tells of each damaged copy what the lister tells.
fn main(rt: HostRuntime) -> anyhow::Result<()> {
    run(&rt)
}

fn run(rt: &HostRuntime) -> anyhow::Result<()> {
    let mut tally = Tally::default();
    for name in COPIES {
        let text = told(rt, name, Layers::default(), false)?;
        print!(rt; "{text}")?;
        compare(rt, name, text.as_str(), &mut tally)?;
    }
    for name in MORE {
        let text = told(rt, name, Layers::default(), true)?;
        print!(rt; "{text}")?;
    }
    let Tally { same, different } = tally;
    println!(rt; "over other stacks: {same} listings the same, {different} different")?;
    Ok(())
}

// What the lister tells of a copy, through these layers, and whether more is asked of it.
fn told(rt: &HostRuntime, name: &str, layers: Layers, more: bool) -> anyhow::Result<String> {
    let dir = format!(in rt.alloc(); "{name}.dir")?;
    let pag = format!(in rt.alloc(); "{name}.pag")?;
    let request = Request {
        dir: dir.as_str(),
        pag: pag.as_str(),
        layers,
        go_on: more,
        names: NAMES,
        symbols: if more { SYMBOLS } else { &[] },
        members: if more { MEMBERS } else { &[] },
    };
    let mut text = Vec::new(rt.alloc());
    list(rt, &mut text, &request)?;
    Ok(String::from_utf8(text)?)
}

// Compares the listing of a copy with those over the other stacks.
fn compare(rt: &HostRuntime, name: &str, text: &str, tally: &mut Tally) -> anyhow::Result<()> {
    for layers in STACKS {
        let other = told(rt, name, layers, false)?;
        let renamed = as_bottom(rt, other.as_str())?;
        if renamed.as_str() == text {
            tally.same = tally.same.saturating_add(1);
        } else {
            println!(rt; "{name}: another listing over {layers:?}")?;
            tally.different = tally.different.saturating_add(1);
        }
    }
    Ok(())
}

// The text with the refusals of each layer told as those of the bottom: a number past the limit is refused by what stands
// uppermost.
fn as_bottom(rt: &HostRuntime, text: &str) -> Result<String, AllocError> {
    let bottom = "by the bottom device at";
    let text = text.replace(rt.alloc(), "by the window at", bottom)?;
    let text = text
        .as_str()
        .replace(rt.alloc(), "by the quota at", bottom)?;
    text.as_str().replace(rt.alloc(), "by the cache at", bottom)
}
