// Stacks of up to four layers over a device, and the runs on them.
use crate::model::Floor;
use crate::runs::{Bench, Stop, edge};
use cache::Cache;
use devices::Device;
use faults::Layer;
use quota::Quota;
use std::alloc::{AllocError, Global};
use std::fmt;
use std::iter::successors;
use std::marker::PhantomData;
use window::Window;

// A layer of a stack.
#[derive(Clone, Copy)]
pub enum Kind {
    Cache,
    Quota,
    Window,
}

impl Kind {
    // Who refuses on it, by whose name it is printed.
    fn layer(self) -> Layer {
        match self {
            Kind::Cache => Layer::Cache,
            Kind::Quota => Layer::Quota,
            Kind::Window => Layer::Window,
        }
    }
}

const KINDS: [Kind; 3] = [Kind::Cache, Kind::Quota, Kind::Window];

// How many stacks of a height there are.
pub fn shapes(height: u32) -> usize {
    KINDS.len().saturating_pow(height)
}

// The layers of a stack, lowest first, for each code below the number of stacks of that height: the code's digits.
pub fn shape(heap: Global, height: u32, code: usize) -> Result<Vec<Kind>, AllocError> {
    successors(Some(code), |rest| Some(*rest / KINDS.len()))
        .take(height as usize)
        .map(|rest| KINDS[rest % KINDS.len()])
        .collect(heap)
}

// A stack by its name: that of the device at the bottom, and then the layers, uppermost last.
#[derive(Clone, Copy)]
pub struct Stack<'a> {
    pub bottom: &'a str,
    pub kinds: &'a [Kind],
}

// By hand: a derive prints no list.
impl<'a> fmt::Display for Stack<'a> {
    fn fmt<W: fmt::Write>(&self, f: &mut fmt::Formatter<W>) -> fmt::Result {
        f.write_str(self.bottom)?;
        for kind in self.kinds {
            write!(f, " {}", kind.layer())?;
        }
        Ok(())
    }
}

// A cache over a device, beside one in the model.
fn with_cache<D: Device + Drop>(bench: &mut Bench, below: D) -> Result<Cache<D>, Stop> {
    bench.model.add(Floor::Cache(Vec::new(bench.heap)))?;
    Ok(Cache::new(below))
}

// A quota over a device, beside one in the model.
fn with_quota<D: Device + Drop>(bench: &mut Bench, below: D) -> Result<Quota<D>, Stop> {
    let remainder = if bench.random.one_in(6) {
        u32::MAX
    } else {
        bench.random.below(8)
    };
    bench.model.add(Floor::Quota(remainder))?;
    Ok(Quota::new(below, remainder))
}

// A window on a device, beside one in the model.
fn with_window<D: Device + Drop>(bench: &mut Bench, below: D) -> Result<Window<D>, Stop> {
    let limit = bench.model.limit();
    let base = if bench.random.one_in(16) {
        edge(&mut bench.random, limit)
    } else {
        bench.random.below(3)
    };
    let length = if bench.random.one_in(8) {
        edge(&mut bench.random, limit)
    } else {
        bench.random.below(40).saturating_add(8)
    };
    bench.model.add(Floor::Window { base, length })?;
    Ok(Window::new(below, base, length))
}

// How many layers may stand on a device. The number is in the type, since each layer makes a stack of another type.
pub trait Height {
    // Puts these layers on a device, as many of them as the height allows, and runs.
    fn grow<D: Device + Drop>(bench: &mut Bench, kinds: &[Kind], below: D) -> Result<(), Stop>;
}

// No layer.
pub struct Ground;

// One layer more.
pub struct Above<H>(PhantomData<H>);

impl Height for Ground {
    fn grow<D: Device + Drop>(bench: &mut Bench, _kinds: &[Kind], below: D) -> Result<(), Stop> {
        let mut device = below;
        let calls = bench.random.below(150).saturating_add(1);
        bench.run(&mut device, calls)
    }
}

impl<H: Height> Height for Above<H> {
    fn grow<D: Device + Drop>(bench: &mut Bench, kinds: &[Kind], below: D) -> Result<(), Stop> {
        // By kind: each makes a device of another type, which no one value could hold.
        match kinds {
            [] => Ground::grow(bench, kinds, below),
            [Kind::Cache, rest @ ..] => {
                let device = with_cache(bench, below)?;
                H::grow(bench, rest, device)
            }
            [Kind::Quota, rest @ ..] => {
                let device = with_quota(bench, below)?;
                H::grow(bench, rest, device)
            }
            [Kind::Window, rest @ ..] => {
                let device = with_window(bench, below)?;
                H::grow(bench, rest, device)
            }
        }
    }
}

// The most layers that a stack has, as a number and as a type.
pub const HEIGHT: u32 = 4;

pub type Highest = Above<Above<Above<Above<Ground>>>>;
