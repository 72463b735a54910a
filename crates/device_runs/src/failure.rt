// Why something could not be done: no memory, or another reason.
use faults::Fault;
use std::alloc::AllocError;
use std::fmt::{Debug, Display};
use thiserror::Error;

#[derive(Debug, Drop, Error)]
#[error_bound(E: Debug + Display)]
pub enum Failure<E> {
    #[error("no memory")]
    Memory(#[from(alloc)] AllocError),
    #[error("{0}")]
    Other(E),
}

// By hand: a derived one would be for every reason, and conflict with that for memory.
impl From<Fault> for Failure<Fault> {
    fn from(fault: Fault) -> Failure<Fault> {
        Failure::Other(fault)
    }
}

// What was answered, given that there was memory.
pub fn with_memory<T, E>(answer: Result<T, Failure<E>>) -> Result<Result<T, E>, AllocError> {
    match answer {
        Ok(value) => Ok(Ok(value)),
        Err(Failure::Memory(error)) => Err(error),
        Err(Failure::Other(reason)) => Ok(Err(reason)),
    }
}
