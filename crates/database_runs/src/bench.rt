// What a run needs besides the device, and how what it gets is compared with what the model has.
use crate::model::Model;
use crate::model::claims::Claims;
use crate::model::packing::Entry;
use crate::random::Random;
use crate::tally::{ReadTally, WriteTally};
use crate::watched::Watched;
use devices::Device;
use std::alloc::{AllocError, Global};
use std::fmt::Debug;
use std::io;
use thiserror::Error;

// Why the runs stop early.
#[derive(Debug, Drop, Error)]
pub enum Stop {
    #[error("no memory")]
    Memory(#[from(alloc)] AllocError),
    #[error(transparent)]
    Output(#[from] io::Error),
    #[error("{0}")]
    Differs(String),
}

// The model, keys to call with, and what was done. Beside the model there is a list of the pairs that the database has to hold.
#[derive(Drop)]
pub struct Bench {
    pub heap: Global,
    pub random: Random,
    pub model: Model,
    pub claims: Claims,
    pub keys: Vec<Vec<u8>>,
    pub list: Option<Vec<Entry>>,
    pub reads: ReadTally,
    pub writes: WriteTally,
}

impl Bench {
    // Nothing yet.
    pub fn new(heap: Global, start: u64) -> Bench {
        Bench {
            heap,
            random: Random::new(heap, start),
            model: Model::new(0, Vec::new(heap)),
            claims: Claims::new(heap, Vec::new(heap), 0),
            keys: Vec::new(heap),
            list: None,
            reads: ReadTally::default(),
            writes: WriteTally::default(),
        }
    }

    // Compares answers.
    pub fn same<T: PartialEq + Debug>(&self, what: &str, got: &T, wanted: &T) -> Result<(), Stop> {
        if *got == *wanted {
            return Ok(());
        }
        Err(differs(self.heap, what, got, wanted)?)
    }

    // Compares what was asked of the device.
    pub fn same_trail<D: Device + Drop>(&self, device: &Watched<D>) -> Result<(), Stop> {
        self.same(
            "what the device was asked",
            &device.trail(),
            &self.model.trail,
        )
    }

    // Compares bytes.
    pub fn same_bytes(&self, what: &str, got: &[u8], wanted: &[u8]) -> Result<(), Stop> {
        if got == wanted {
            return Ok(());
        }
        let text = format!(in self.heap; "{what} has other bytes")?;
        Err(Stop::Differs(text))
    }
}

// What stops the runs where something differs.
pub fn differs<T: Debug, U: Debug>(
    heap: Global,
    what: &str,
    got: &T,
    wanted: &U,
) -> Result<Stop, AllocError> {
    let text = format!(in heap; "{what} is {got:?}, and has to be {wanted:?}")?;
    Ok(Stop::Differs(text))
}
