// Stacks of a few layers over a device, on which blocks are written at every height, and the runs on them.
use crate::bench::{Bench, Stop};
use crate::random::Random;
use cache::Cache;
use devices::Device;
use quota::Quota;
use std::alloc::AllocError;
use std::marker::PhantomData;
use window::Window;

// A layer of a stack, and how it is made.
#[derive(Clone, Copy, Debug)]
pub enum Plan {
    Cache,
    Quota(u32),
    Window { base: u32, length: u32 },
}

impl Plan {
    // A random layer.
    fn random(random: &mut Random) -> Plan {
        match random.below(3) {
            0 => Plan::Cache,
            1 => Plan::Quota(random_remainder(random)),
            _ => Plan::Window {
                base: random.below(6),
                length: random_length(random),
            },
        }
    }

    // How far the database lies from the layer's number 0 in what is below.
    fn base(&self) -> u32 {
        match self {
            Plan::Window { base, .. } => *base,
            _ => 0,
        }
    }
}

// How many claims a quota lets pass.
fn random_remainder(random: &mut Random) -> u32 {
    match random.below(4) {
        0 => random.below(4),
        1 => random.below(30),
        _ => u32::MAX,
    }
}

// A window's length: not often so short that it cuts a database.
fn random_length(random: &mut Random) -> u32 {
    match random.below(10) {
        0 => random.below(8),
        1..=2 => random.below(60),
        3 => random.below(1200),
        4 => 32_772,
        _ => u32::MAX,
    }
}

// The layers of a random stack, lowest first.
pub fn random_stack(random: &mut Random) -> Result<Vec<Plan>, AllocError> {
    let heap = random.heap;
    let height = random.below(HEIGHT.saturating_add(1));
    (0..height).map(|_| Plan::random(random)).collect(heap)
}

// Where a database lies below these layers.
pub fn base_of(plans: &[Plan]) -> u32 {
    plans
        .iter()
        .fold(0, |sum: u32, plan| sum.saturating_add(plan.base()))
}

// How many layers may stand on a device. The number is in the type, since each layer makes a stack of another type.
pub trait Height {
    // Puts these layers on a device, as many of them as the height allows, and runs.
    fn grow<D: Device + Drop>(bench: &mut Bench, plans: &[Plan], below: D) -> Result<(), Stop>;
}

// No layer.
pub struct Ground;

// One layer more.
pub struct Above<H>(PhantomData<H>);

impl Height for Ground {
    fn grow<D: Device + Drop>(bench: &mut Bench, _plans: &[Plan], below: D) -> Result<(), Stop> {
        let mut device = below;
        bench.write_stale(&mut device, 1)?;
        bench.run(device)
    }
}

impl<H: Height> Height for Above<H> {
    fn grow<D: Device + Drop>(bench: &mut Bench, plans: &[Plan], below: D) -> Result<(), Stop> {
        let mut device = below;
        bench.write_stale(&mut device, 4)?;
        // By kind: each makes a device of another type, which no one value could hold.
        match plans {
            [] => Ground::grow(bench, plans, device),
            [Plan::Cache, rest @ ..] => {
                bench.add_cache();
                H::grow(bench, rest, Cache::new(device))
            }
            [Plan::Quota(remainder), rest @ ..] => {
                bench.add_quota(*remainder)?;
                H::grow(bench, rest, Quota::new(device, *remainder))
            }
            [Plan::Window { base, length }, rest @ ..] => {
                bench.add_window(*base, *length)?;
                H::grow(bench, rest, Window::new(device, *base, *length))
            }
        }
    }
}

// The most layers that a stack has, as a number and as a type.
const HEIGHT: u32 = 3;

pub type Highest = Above<Above<Above<Ground>>>;
