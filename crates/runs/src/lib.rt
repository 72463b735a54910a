// Runs a list of calls on a database.
#![tactic(auto)]

pub mod kinds;

ghost use Rattle.std.specs.Prelude.{◌≡◌};
ghost use Rattle.std.specs.Prelude.{[], IfOk, None, OnErr, Some};
ghost use Rattle.contents.specs.Blocks.{blocks_of};
ghost use Rattle.runs.specs.Law.{Along};
ghost use Rattle.runs.specs.Performed.{Performed, Ran, told_as};
ghost use Rattle.runs.specs.declared.Answer.TheVariants.{Deleted, Done, Found, Got, Shown};
ghost use Rattle.upkeep.specs.Holding.{BlankBlocks};

use calls::{Mode, Position, Stepped};
use database::Database;
use devices::Device;
use faults::Fault;
use kinds::Kinds;
use pages::Place;
use std::alloc::{AllocError, Global};

// A call of a database, with its arguments. A record that is put says its own kind; one that is got is read as the kind asked for.
// A page buffer is the caller's own, of any length; it is handed out again with the answer.
#[derive(Drop)]
pub enum Call<'a, K, Kind> {
    Store(&'a [u8], &'a [u8], Mode),
    Put(&'a [u8], K),
    Fetch(&'a [u8], Vec<u8>),
    Get(&'a [u8], Kind, Vec<u8>),
    Delete(&'a [u8]),
    Step(Position, Vec<u8>),
    Flush,
}

// What an accepted call answers.
#[derive(Drop)]
pub enum Answer<K> {
    Done,
    Found(Option<Place>),
    Got(Option<K>),
    Deleted(bool),
    Shown(Stepped),
}

// What a call was answered, and the page buffer that it came with, if any, as the call left it.
#[derive(Drop)]
pub struct Outcome<K> {
    pub answer: Result<Answer<K>, Fault>,
    pub page: Option<Vec<u8>>,
}

// Runs calls on a database, one after another, and hands out each one's outcome. Want of memory is found before the first call:
// then none is made, and the calls are dropped with their buffers.
pub fn run<D: Device, K: Kinds + Drop>(
    alloc: Global,
    database: &mut Database<D>,
    calls: Vec<Call<K, K::Kind>>,
) -> Result<Vec<Outcome<K>>, AllocError>
    ensures none { OnErr result (database.new ≡ database.old) }
    ensures ran { IfOk result (λ outcomes. Ran D.Device.steps D.Device.meaning K.Kinds.code K.Kinds.decoded calls.entry.items outcomes.items database.old.device database.new.device) }
    ensures law { IfOk result (λ outcomes. BlankBlocks (blocks_of (D.Device.meaning database.old.device)) → Along D.Device.steps D.Device.meaning K.Kinds.code K.Kinds.decoded K.Kinds.own_kind K.Kinds.fits [] calls.entry.items outcomes.items database.old.device database.new.device) }
{
    // What holds of every device, and the law rests on, a device says with its limit.
    let _limit = database.limit();
    let mut outcomes = Vec::with_capacity(alloc, calls.len())?;
    for call in calls {
        outcomes.push(perform(database, call))?;
    }
    Ok(outcomes)
}

// Makes one call.
fn perform<D: Device, K: Kinds + Drop>(
    database: &mut Database<D>,
    call: Call<K, K::Kind>,
) -> Outcome<K>
    ensures { Performed D.Device.steps D.Device.meaning K.Kinds.code K.Kinds.decoded call.entry result database.old.device database.new.device }
{
    match call {
        Call::Store(key, value, mode) => without_page(done(database.store(key, value, mode))),
        Call::Put(key, record) => without_page(done(record.put(database, key))),
        Call::Fetch(key, mut page) => {
            let answer = found(database.fetch(key, &mut page));
            with_page(answer, page)
        }
        Call::Get(key, kind, mut page) => {
            let answer = got(K::get(&kind, database, key, &mut page));
            with_page(answer, page)
        }
        Call::Delete(key) => without_page(deleted(database.delete(key))),
        Call::Step(at, mut page) => {
            let answer = shown(database.step(at, &mut page));
            with_page(answer, page)
        }
        Call::Flush => without_page(done(database.flush())),
    }
}

// The outcome of a call that came with a page buffer.
fn with_page<K>(answer: Result<Answer<K>, Fault>, page: Vec<u8>) -> Outcome<K>
    ensures { result ≡ record { answer = answer; page = Some page } }
{
    Outcome {
        answer,
        page: Some(page),
    }
}

// The outcome of a call that came with none.
fn without_page<K>(answer: Result<Answer<K>, Fault>) -> Outcome<K>
    ensures { result ≡ record { answer = answer; page = None } }
{
    Outcome { answer, page: None }
}

// What each call answers, as an answer of a list.
fn done<K>(accepted: Result<(), Fault>) -> Result<Answer<K>, Fault>
    ensures { result ≡ told_as (λ _. Done) accepted }
{
    accepted?;
    Ok(Answer::Done)
}

fn found<K>(place: Result<Option<Place>, Fault>) -> Result<Answer<K>, Fault>
    ensures { result ≡ told_as (λ place. Found place) place }
{
    Ok(Answer::Found(place?))
}

fn got<K>(item: Result<Option<K>, Fault>) -> Result<Answer<K>, Fault>
    ensures { result ≡ told_as (λ x. Got x) item }
{
    Ok(Answer::Got(item?))
}

fn deleted<K>(there: Result<bool, Fault>) -> Result<Answer<K>, Fault>
    ensures { result ≡ told_as (λ there. Deleted there) there }
{
    Ok(Answer::Deleted(there?))
}

fn shown<K>(pair: Result<Stepped, Fault>) -> Result<Answer<K>, Fault>
    ensures { result ≡ told_as (λ s. Shown s) pair }
{
    Ok(Answer::Shown(pair?))
}
