// A database told of: its pairs, and the values of names.
ghost use Rattle.std.specs.Prelude.{◌≡◌, ◌+◌, ◌≤◌, IfSome};

use crate::Request;
use crate::reading::{Shown, next_pair};
use crate::text::{first_line, quoted};
use crate::wanted::{Value, Wanted};
use database::Database;
use devices::Device;
use faults::Fault;
use lookup::DIRECTORY_BLOCKS;
use pages::PAGE;
use records::{Member, Symbol};
use std::alloc::Global;
use std::io;
use std::io::Write;

// Where it is told, the database, and room for the page that it read last.
#[derive(Drop)]
struct Lister<'a, W, D> {
    heap: Global,
    out: &'a mut W,
    database: Database<D>,
    page: [u8; PAGE],
}

// How the listing of the pairs went: how many were shown, how many pages were left out, and what stopped it, if anything did.
#[derive(Default, Drop)]
struct Pairs {
    shown: usize,
    refused: usize,
    stopped: Option<Fault>,
}

// How the looking up of names went.
#[derive(Clone, Copy, Default)]
struct Tally {
    found: usize,
    missing: usize,
    refused: usize,
}

// Tells of the database on a device.
pub(crate) fn tell_all<W: Write, D: Device + Drop>(
    heap: Global,
    out: &mut W,
    request: &Request,
    device: D,
) -> anyhow::Result<()> {
    let mut lister = Lister {
        heap,
        out,
        database: Database::new(device),
        page: [0; PAGE],
    };
    let pairs = lister.tell_pairs(request.go_on)?;
    let names = lister.look_up_all::<Value>(request.names)?;
    let symbols = lister.look_up_all::<Symbol>(request.symbols)?;
    let members = lister.look_up_all::<Member>(request.members)?;
    lister.tell_end(&pairs)?;
    lister.tell_tally("names", names)?;
    if !request.symbols.is_empty() {
        lister.tell_tally("symbols", symbols)?;
    }
    if !request.members.is_empty() {
        lister.tell_tally("members", members)?;
    }
    Ok(())
}

impl<'a, W: Write, D: Device + Drop> Lister<'a, W, D> {
    // Shows the pairs one after another, to the end or to the first refusal; where it goes on, refused pages are left out.
    fn tell_pairs(&mut self, go_on: bool) -> anyhow::Result<Pairs> {
        let mut pairs = Pairs::default();
        let mut first = 0;
        while let Some(fault) = self.tell_pairs_from(first, &mut pairs.shown)? {
            match refused_page(&fault, first) {
                Some(page) if go_on => {
                    writeln!(self.out, "page {page}: {fault}")?;
                    pairs.refused = pairs.refused.saturating_add(1);
                    first = page + 1;
                }
                _ => {
                    pairs.stopped = Some(fault);
                    break;
                }
            }
        }
        Ok(pairs)
    }

    // The same from a page on, to the end or to the first refusal, which is then the answer.
    fn tell_pairs_from(&mut self, page: u32, shown: &mut usize) -> anyhow::Result<Option<Fault>> {
        // A loop: each step begins where the last one ended, and an iterator of the pairs would have to say again, in clauses
        // of its own, what a step promises.
        let mut at = (page, 0);
        loop {
            match next_pair(&mut self.database, at, &mut self.page) {
                Ok(Some(pair)) => {
                    show_pair(self.heap, self.out, &pair)?;
                    *shown = shown.saturating_add(1);
                    at = pair.next;
                }
                Ok(None) => return Ok(None),
                Err(fault) => return Ok(Some(fault)),
            }
        }
    }

    fn tell_end(&mut self, pairs: &Pairs) -> io::Result<()> {
        let shown = pairs.shown;
        match pairs.stopped {
            None if pairs.refused == 0 => writeln!(
                self.out,
                "pairs: {shown} shown, listed to the end"
            ),
            None => {
                let refused = pairs.refused;
                writeln!(
                    self.out,
                    "pairs: {shown} shown, listed to the end, {refused} pages refused"
                )
            }
            Some(fault) => {
                // the page's block comes after the four of the directory
                let page = fault.block.saturating_sub(DIRECTORY_BLOCKS);
                writeln!(
                    self.out,
                    "pairs: {shown} shown, stopped at page {page}: {fault}"
                )
            }
        }
    }

    // Looks up names, one on a line.
    fn look_up_all<T: Wanted>(&mut self, names: &[u8]) -> anyhow::Result<Tally> {
        let mut tally = Tally::default();
        // By `first_line`, which says what a line is: `split` would give one line more after a last line feed.
        let mut rest = names;
        while !rest.is_empty() {
            let (name, after) = first_line(rest);
            self.look_up::<T>(name, &mut tally)?;
            rest = after;
        }
        Ok(tally)
    }

    // Looks one name up, tells of it and counts it.
    fn look_up<T: Wanted>(&mut self, name: &[u8], tally: &mut Tally) -> anyhow::Result<()> {
        let word = T::WORD;
        let shown = quoted(self.heap, name)?;
        match T::look_up(self.heap, &mut self.database, name, &mut self.page)? {
            Ok(Some(text)) => {
                tally.found = tally.found.saturating_add(1);
                writeln!(self.out, "{word} {shown}: {text}")?;
            }
            Ok(None) => {
                tally.missing = tally.missing.saturating_add(1);
                writeln!(self.out, "{word} {shown}: not there")?;
            }
            Err(fault) => {
                tally.refused = tally.refused.saturating_add(1);
                writeln!(self.out, "{word} {shown}: {fault}")?;
            }
        }
        Ok(())
    }

    fn tell_tally(&mut self, words: &str, tally: Tally) -> io::Result<()> {
        let Tally {
            found,
            missing,
            refused,
        } = tally;
        writeln!(
            self.out,
            "{words}: {found} found, {missing} not there, {refused} refused"
        )
    }
}

// Shows a pair, which stands before its next position.
fn show_pair<W: Write>(heap: Global, out: &mut W, pair: &Shown) -> anyhow::Result<()> {
    let (page, after) = pair.next;
    let number = after.saturating_sub(1);
    let key = quoted(heap, pair.key)?;
    let value = quoted(heap, pair.value)?;
    writeln!(out, "page {page} pair {number}: {key} = {value}")?;
    Ok(())
}

// The page that a refusal names, if it is one from a page on.
fn refused_page(fault: &Fault, first: u32) -> Option<u32>
    ensures { IfSome result (λ page. (first ≤ page) × (page + 4 ≡ fault.now.block)) }
{
    let page = fault.block.checked_sub(DIRECTORY_BLOCKS)?;
    (page >= first).then_some(page)
}
