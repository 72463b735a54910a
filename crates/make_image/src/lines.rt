// Pairs that are stored and keys that are taken out, line by line.
use calls::Mode;
use database::Database;
use faults::Fault;
use flat::Flat;
use std::alloc::Global;
use std::fmt;

// How many lines went which way.
#[derive(Clone, Copy, Default)]
struct Tally {
    stored: u64,
    deleted: u64,
    missing: u64,
    refused: u64,
}

// By hand: a derive is for errors, which a tally is not.
impl fmt::Display for Tally {
    fn fmt<W: fmt::Write>(&self, f: &mut fmt::Formatter<W>) -> fmt::Result {
        let Tally {
            stored,
            deleted,
            missing,
            refused,
        } = self;
        write!(
            f,
            "{stored} stored, {deleted} taken out, {missing} not there, {refused} refused"
        )
    }
}

// What became of a line.
enum Outcome {
    Stored,
    Deleted(bool),
}

// Does what the lines say to a database on a device, tells of what is refused, and gives the device again.
pub fn store_lines(rt: &HostRuntime, flat: Flat, text: &str) -> anyhow::Result<Flat> {
    let mut database = Database::new(flat);
    let mut tally = Tally::default();
    let mut number = 0u64;
    for line in text.lines() {
        number = number.saturating_add(1);
        let counter = match store_line(rt.alloc(), &mut database, line)? {
            Ok(Outcome::Stored) => &mut tally.stored,
            Ok(Outcome::Deleted(true)) => &mut tally.deleted,
            Ok(Outcome::Deleted(false)) => &mut tally.missing,
            Err(fault) => {
                println!(rt; "line {number}: {fault}")?;
                &mut tally.refused
            }
        };
        *counter = counter.saturating_add(1);
    }
    println!(rt; "{tally}")?;
    Ok(database.into_device())
}

// Stores the pair of a line, or takes its key out.
fn store_line(
    heap: Global,
    database: &mut Database<Flat>,
    line: &str,
) -> anyhow::Result<Result<Outcome, Fault>> {
    let Some((key, value)) = line.split_once(' ') else {
        let key = hex::decode(heap, line)?;
        return Ok(database.delete(key.as_slice()).map(Outcome::Deleted));
    };
    let key = hex::decode(heap, key)?;
    let value = hex::decode(heap, value)?;
    let answer = database.store(key.as_slice(), value.as_slice(), Mode::Replace);
    Ok(answer.map(|()| Outcome::Stored))
}
