// What is told of calls and of pairs.
use crate::ask::Ask;
use crate::work::Item;
use anyhow::bail;
use database::Position;
use pages::{Place, view};
use records::{Member, Record, Sort, Symbol};
use runs::kinds::{Either, Only};
use runs::{Answer, Outcome};
use std::alloc::{AllocError, Global};

// Tells what was answered, unless it was accepted and shows nothing.
pub fn tell(rt: &HostRuntime, ask: &Ask, outcome: &Outcome<Item>) -> anyhow::Result<()> {
    let heap = rt.alloc();
    let asked = ask_text(heap, ask)?;
    match &outcome.answer {
        Ok(Answer::Done | Answer::Shown(_)) => {}
        Ok(Answer::Found(Some(place))) => {
            let value = hex::encode(heap, view(shown_page(outcome)?, *place)?)?;
            println!(rt; "  {asked}: {value}")?;
        }
        Ok(Answer::Got(Some(item))) => {
            let record = item_text(heap, item)?;
            println!(rt; "  {asked}: {record}")?;
        }
        Ok(Answer::Deleted(true)) => println!(rt; "  {asked}: deleted")?,
        Ok(_) => println!(rt; "  {asked}: not there")?,
        Err(fault) => println!(rt; "  {asked}: {fault}")?,
    }
    Ok(())
}

// The page buffer of a call that came with one.
pub fn shown_page(outcome: &Outcome<Item>) -> anyhow::Result<&[u8]> {
    let Some(page) = &outcome.page else {
        bail!("a page buffer was not handed out");
    };
    Ok(page.as_slice())
}

// A pair, by its page, its number there and the places of its key and its value.
pub fn pair_text(
    heap: Global,
    page: &[u8],
    key: Place,
    value: Place,
    next: Position,
) -> anyhow::Result<String> {
    let (number, after) = next;
    let pair = after.saturating_sub(1);
    let key = str::from_utf8(view(page, key)?)?;
    let value = value_text(heap, view(page, value)?)?;
    Ok(format!(in heap; "page {number} pair {pair}: {key:?} = {value}")?)
}

// What was asked, with which name.
fn ask_text(heap: Global, ask: &Ask) -> anyhow::Result<String> {
    let (word, name) = match ask {
        Ask::Put(name, _) => ("put", *name),
        Ask::Fetch(name) => ("fetch", *name),
        Ask::Get(name, Either::First(())) => ("get symbol", *name),
        Ask::Get(name, Either::Second(())) => ("get member", *name),
        Ask::Delete(name) => ("delete", *name),
        Ask::Flush => ("flush", b"".as_slice()),
    };
    let name = str::from_utf8(name)?;
    Ok(format!(in heap; "{word} {name:?}")?)
}

// A value as the record that it is the code of. The codes of the two kinds are of two lengths.
fn value_text(heap: Global, value: &[u8]) -> Result<String, AllocError> {
    match (Symbol::decode(value), Member::decode(value)) {
        (Some(symbol), _) => symbol_text(heap, symbol),
        (_, Some(member)) => member_text(heap, member),
        _ => hex::encode(heap, value),
    }
}

fn item_text(heap: Global, item: &Item) -> Result<String, AllocError> {
    match item {
        Either::First(Only(symbol)) => symbol_text(heap, *symbol),
        Either::Second(Only(member)) => member_text(heap, *member),
    }
}

fn symbol_text(heap: Global, symbol: Symbol) -> Result<String, AllocError> {
    let Symbol {
        address,
        section,
        addend,
    } = symbol;
    format!(in heap; "symbol at 0x{address:08x} in section {section}, addend {addend}")
}

fn member_text(heap: Global, member: Member) -> Result<String, AllocError> {
    let Member {
        offset,
        length,
        sort,
    } = member;
    let sort = match sort {
        Sort::Object => "object",
        Sort::Data => "data",
        Sort::Other => "other",
    };
    format!(in heap; "member of {length} bytes at {offset}, {sort}")
}
