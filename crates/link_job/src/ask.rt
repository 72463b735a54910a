// What the job asks of a database.
use crate::work::{Item, Kind};
use pages::PAGE;
use runs::Call;
use std::alloc::{AllocError, Global};

#[derive(Clone, Copy)]
pub enum Ask<'a> {
    Put(&'a [u8], Item),
    Fetch(&'a [u8]),
    Get(&'a [u8], Kind),
    Delete(&'a [u8]),
    Flush,
}

// The calls that ask all this.
pub fn calls<'a>(heap: Global, asks: &[Ask<'a>]) -> Result<Vec<Call<'a, Item, Kind>>, AllocError> {
    let mut calls = Vec::with_capacity(heap, asks.len())?;
    for ask in asks {
        calls.push(call(heap, *ask)?)?;
    }
    Ok(calls)
}

// The call, with a page buffer where it takes one.
fn call<'a>(heap: Global, ask: Ask<'a>) -> Result<Call<'a, Item, Kind>, AllocError> {
    Ok(match ask {
        Ask::Put(name, item) => Call::Put(name, item),
        Ask::Fetch(name) => Call::Fetch(name, page_buffer(heap)?),
        Ask::Get(name, kind) => Call::Get(name, kind, page_buffer(heap)?),
        Ask::Delete(name) => Call::Delete(name),
        Ask::Flush => Call::Flush,
    })
}

pub fn page_buffer(heap: Global) -> Result<Vec<u8>, AllocError> {
    Ok(vec![in heap; 0u8; PAGE]?)
}
