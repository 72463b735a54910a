// Lists of asks, and walks.
use crate::ask::{Ask, calls, page_buffer};
use crate::tally::Tally;
use crate::telling::{pair_text, tell};
use anyhow::bail;
use database::{Database, Position, Stepped};
use devices::Device;
use records::{Member, Symbol};
use runs::kinds::{Either, Only};
use runs::{Answer, Call, Outcome, run};
use std::alloc::Global;

// A record of the job, and which kind of record.
pub type Item = Either<Only<Symbol>, Only<Member>>;

pub type Kind = Either<(), ()>;

pub const SYMBOL: Kind = Either::First(());

pub const MEMBER: Kind = Either::Second(());

// No walk has more steps: the images have few records, and a page at most 204 pairs.
const MOST_STEPS: u32 = 10_000;

// Asks, tells of each answer what there is to tell, and how many went which way.
pub fn work<D: Device>(
    rt: &HostRuntime,
    database: &mut Database<D>,
    asks: &[Ask],
) -> anyhow::Result<()> {
    let outcomes = run(rt.alloc(), database, calls(rt.alloc(), asks)?)?;
    let mut tally = Tally::default();
    for (ask, outcome) in asks.iter().zip(outcomes.iter()) {
        tally.count(ask, &outcome.answer);
        tell(rt, ask, outcome)?;
    }
    println!(rt; "  {tally}")?;
    Ok(())
}

// A line for each pair, by steps from the start to the end, in one page buffer.
pub fn walk<D: Device>(heap: Global, database: &mut Database<D>) -> anyhow::Result<Vec<String>> {
    let mut lines = Vec::new(heap);
    let mut at = (0, 0);
    let mut page = page_buffer(heap)?;
    for _ in 0..MOST_STEPS {
        let Outcome {
            answer,
            page: shown,
        } = step(heap, database, at, page)?;
        let Some(shown) = shown else {
            bail!("a page buffer was not handed out");
        };
        let Answer::Shown(Stepped::Pair((key, value, next))) = answer? else {
            return Ok(lines);
        };
        lines.push(pair_text(heap, &shown, key, value, next)?)?;
        at = next;
        page = shown;
    }
    bail!("a walk does not end")
}

// One step, as a run of one call.
fn step<D: Device>(
    heap: Global,
    database: &mut Database<D>,
    at: Position,
    page: Vec<u8>,
) -> anyhow::Result<Outcome<Item>> {
    let calls: Vec<Call<Item, Kind>> = vec![in heap; Call::Step(at, page)]?;
    let Some(outcome) = run(heap, database, calls)?.pop() else {
        bail!("a call has no outcome");
    };
    Ok(outcome)
}
