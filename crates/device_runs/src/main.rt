// Long random lists of device calls, on every stack of up to four layers, beside a plain model.
#![tactic(auto)]

mod bottoms;
mod counts;
mod failure;
mod images;
mod model;
mod random;
mod runs;
mod stacks;
mod store;
mod tally;
mod watched;

use bottoms::Bottom;
use counts::count;
use flat::Flat;
use random::Random;
use runs::{Bench, Stop};
use slotted::Slotted;
use stacks::{HEIGHT, Height, Highest, Kind, Stack, shape, shapes};
use tally::Tally;
use watched::Watched;

// How many images a stack is run on, and how often it is made anew on each.
const IMAGES: u32 = 12;

const ROUNDS: u32 = 3;

// How many stacks were run, and how many calls were made on them.
#[derive(Clone, Copy, Default)]
struct Sums {
    stacks: u64,
    calls: u64,
}

// Runs everything, and tells of it.
fn main(rt: HostRuntime) -> anyhow::Result<()> {
    let mut sums = Sums::default();
    let differences = match run_all(&rt, &mut sums) {
        Ok(()) => 0,
        Err(Stop::Differs(text)) => {
            println!(rt; "first difference: {text}")?;
            1
        }
        Err(stop) => return Err(stop.into()),
    };
    let Sums { stacks, calls } = sums;
    println!(rt; "stacks: {stacks}, calls: {calls}, differences: {differences}")?;
    Ok(())
}

// Runs every stack over each kind of bottom, up to the first difference.
fn run_all(rt: &HostRuntime, sums: &mut Sums) -> Result<(), Stop> {
    run_bottom::<Flat>(rt, sums)?;
    run_bottom::<Slotted>(rt, sums)
}

// Runs every stack over one kind of bottom.
fn run_bottom<B: Bottom>(rt: &HostRuntime, sums: &mut Sums) -> Result<(), Stop> {
    for height in 0..=HEIGHT {
        for code in 0..shapes(height) {
            let kinds = shape(rt.alloc(), height, code)?;
            run_stack::<B>(rt, kinds.as_slice(), sums)?;
        }
    }
    Ok(())
}

// Runs one stack on many images, and tells how it went.
fn run_stack<B: Bottom>(rt: &HostRuntime, kinds: &[Kind], sums: &mut Sums) -> Result<(), Stop> {
    let heap = rt.alloc();
    let mut bench = Bench {
        heap,
        random: Random::new(heap, sums.stacks.wrapping_mul(0x9e37_79b9).wrapping_add(7)),
        model: B::model(heap, &[])?,
        tally: Tally::default(),
    };
    let outcome = run_images::<B>(&mut bench, kinds);
    let stack = Stack {
        bottom: B::name(),
        kinds,
    };
    let tally = bench.tally;
    println!(rt; "{stack}: {tally}")?;
    count(&mut sums.stacks);
    sums.calls = sums.calls.saturating_add(tally.calls());
    outcome
}

// Runs a stack on many images.
fn run_images<B: Bottom>(bench: &mut Bench, kinds: &[Kind]) -> Result<(), Stop> {
    for _ in 0..IMAGES {
        let image = B::image(&mut bench.random)?;
        bench.model = B::model(bench.heap, image.as_slice())?;
        run_image::<B>(bench, kinds, image)?;
    }
    Ok(())
}

// Runs a stack on an image, made anew in each round. With no layer on it the bottom is called for refusals too, so that its
// calls are not compared.
fn run_image<B: Bottom>(bench: &mut Bench, kinds: &[Kind], image: Vec<u8>) -> Result<(), Stop> {
    let mut bytes = image;
    for _ in 0..ROUNDS {
        bench.model.clear();
        let mut bottom = Watched::new(B::open(bench.heap, bytes)?);
        Highest::grow(bench, kinds, &mut bottom)?;
        if !kinds.is_empty() {
            bench.same_counts(bottom.counts())?;
        }
        bytes = bottom.into_below().close();
        bench.same_image(bytes.as_slice())?;
    }
    Ok(())
}
