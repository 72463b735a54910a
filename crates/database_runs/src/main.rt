// Long random lists of calls of databases, on random stacks, beside a plain model.
#![tactic(auto)]

mod bench;
mod bottoms;
mod choices;
mod damage;
mod databases;
mod model;
mod random;
mod reading;
mod runs;
mod stacks;
mod tally;
mod watched;
mod writing;

use bench::{Bench, Stop};
use bottoms::{Bottom, Image};
use choices::add_keys;
use damage::set_bits_below;
use databases::{Made, State, random_database};
use flat::Flat;
use model::Model;
use model::blocks::{BLOCK, Numbered};
use model::claims::Claims;
use random::Random;
use slotted::Slotted;
use stacks::{Height, Highest, Plan, base_of, random_stack};
use std::alloc::AllocError;
use tally::count;

// How many databases of each start are run, each on a stack of its own, and how often the stack is made anew on the bottom.
const DATABASES: u32 = 50;

const ROUNDS: u32 = 2;

// So many blocks of a database are stale at most: more than a cache has frames.
const MOST_STALE: u32 = 12;

// What a database is like at first.
#[derive(Clone, Copy, Debug)]
enum Start {
    Blank,
    Made(State),
}

const STARTS: [Start; 4] = [
    Start::Blank,
    Start::Made(State::Good),
    Start::Made(State::Stray),
    Start::Made(State::Damaged),
];

// How many databases there were, how many lists and calls, and what they did.
#[derive(Clone, Copy, Default)]
struct Sums {
    databases: u64,
    lists: u64,
    calls: u64,
    splits: u64,
    most_splits: u32,
}

// Runs everything, and tells of it. Fails at a difference.
fn main(rt: HostRuntime) -> anyhow::Result<()> {
    let mut sums = Sums::default();
    let outcome = run_all(&rt, &mut sums);
    let Sums {
        databases,
        lists,
        calls,
        splits,
        most_splits,
    } = sums;
    if let Err(Stop::Differs(text)) = &outcome {
        println!(rt; "a difference in database {databases}, list {lists}, call {calls}: {text}")?;
    }
    outcome?;
    println!(rt;
        "databases: {databases}, lists: {lists}, calls: {calls}, splits: {splits}, most in one store: {most_splits}, differences: 0"
    )?;
    Ok(())
}

// Runs databases of every start over each kind of bottom, up to the first difference.
fn run_all(rt: &HostRuntime, sums: &mut Sums) -> Result<(), Stop> {
    for start in STARTS {
        run_start::<Flat>(rt, start, sums)?;
        run_start::<Slotted>(rt, start, sums)?;
    }
    Ok(())
}

// Runs databases of a start over one kind of bottom, and tells how it went.
fn run_start<B: Bottom>(rt: &HostRuntime, start: Start, sums: &mut Sums) -> Result<(), Stop> {
    let heap = rt.alloc();
    let mut bench = Bench::new(
        heap,
        sums.databases.wrapping_mul(0x9e37_79b9).wrapping_add(29),
    );
    let outcome = run_databases::<B>(&mut bench, start, sums);
    let name = B::name();
    let writes = bench.writes;
    let reads = bench.reads;
    println!(rt; "{name}, {start:?}: {writes}")?;
    println!(rt; "{name}, {start:?}: {reads}")?;
    sums.calls = sums
        .calls
        .saturating_add(writes.calls())
        .saturating_add(reads.calls());
    sums.splits = sums.splits.saturating_add(writes.splits);
    sums.most_splits = sums.most_splits.max(writes.most_splits);
    outcome
}

fn run_databases<B: Bottom>(bench: &mut Bench, start: Start, sums: &mut Sums) -> Result<(), Stop> {
    for _ in 0..DATABASES {
        count(&mut sums.databases);
        run_database::<B>(bench, start, sums)?;
    }
    Ok(())
}

// Runs a database on a stack, which is made anew in each round. Where the stack has windows, it lies behind other blocks.
fn run_database<B: Bottom>(bench: &mut Bench, start: Start, sums: &mut Sums) -> Result<(), Stop> {
    let heap = bench.heap;
    let plans = random_stack(&mut bench.random)?;
    let Made { mut blocks, keys } = first_database(&mut bench.random, start, B::pages())?;
    bench.keys = keys;
    make_stale(&mut bench.random, blocks.as_mut_slice());
    move_behind(&mut blocks, base_of(plans.as_slice()))?;
    let Image {
        mut bytes,
        limit,
        held,
        left,
    } = B::image(&mut bench.random, blocks.as_slice())?;
    bench.model = Model::new(limit, blocks);
    bench.claims = Claims::new(heap, held, left);
    bench.list = match start {
        Start::Blank => Some(Vec::new(heap)),
        Start::Made(_) => None,
    };
    for _ in 0..ROUNDS {
        count(&mut sums.lists);
        bytes = run_round::<B>(bench, plans.as_slice(), bytes)?;
    }
    Ok(())
}

// Runs a list on a stack over an image, and gives the image again.
fn run_round<B: Bottom>(
    bench: &mut Bench,
    plans: &[Plan],
    image: Vec<u8>,
) -> Result<Vec<u8>, Stop> {
    let mut bottom = B::open(bench.heap, image)?;
    Highest::grow(bench, plans, &mut bottom)?;
    bench.same_bottom(&mut bottom)?;
    Ok(bottom.close())
}

// The blocks of a database, and keys to call with.
fn first_database(random: &mut Random, start: Start, pages: u32) -> Result<Made, AllocError> {
    let mut made = match start {
        Start::Blank => Made {
            blocks: Vec::new(random.heap),
            keys: Vec::new(random.heap),
        },
        Start::Made(state) => random_database(random, state, pages)?,
    };
    add_keys(random, &mut made.keys)?;
    if matches!(start, Start::Made(State::Damaged)) {
        set_bits_below(random, made.blocks.as_mut_slice(), made.keys.as_slice());
    }
    Ok(made)
}

// Makes some blocks stale.
fn make_stale(random: &mut Random, blocks: &mut [Numbered]) {
    let count = u32::try_from(blocks.len()).unwrap_or(0);
    for _ in 0..random.below(MOST_STALE.saturating_add(1)) {
        let place = random.below(count) as usize;
        if let Some(block) = blocks.get_mut(place) {
            block.stale = true;
        }
    }
}

// Moves the blocks to numbers from a base on, behind others.
fn move_behind(blocks: &mut Vec<Numbered>, base: u32) -> Result<(), AllocError> {
    for block in blocks.iter_mut() {
        block.number = block.number.saturating_add(base);
    }
    for number in 0..base {
        blocks.push(Numbered {
            number,
            bytes: [0x5a; BLOCK],
            stale: false,
        })?;
    }
    Ok(())
}
