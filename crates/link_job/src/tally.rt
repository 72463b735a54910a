// How many calls went which way.
use crate::ask::Ask;
use crate::work::Item;
use faults::Fault;
use runs::Answer;
use std::fmt;

#[derive(Clone, Copy, Default)]
pub struct Tally {
    put: usize,
    found: usize,
    missing: usize,
    deleted: usize,
    refused: usize,
}

impl Tally {
    // Counts what was asked by its answer. A flush that is accepted is none of these.
    pub fn count(&mut self, ask: &Ask, answer: &Result<Answer<Item>, Fault>) {
        let counter = match (ask, answer) {
            (_, Err(_)) => &mut self.refused,
            (Ask::Put(_, _), Ok(_)) => &mut self.put,
            (_, Ok(Answer::Found(Some(_)) | Answer::Got(Some(_)))) => &mut self.found,
            (_, Ok(Answer::Found(None) | Answer::Got(None) | Answer::Deleted(false))) =>
                &mut self.missing,
            (_, Ok(Answer::Deleted(true))) => &mut self.deleted,
            (_, Ok(Answer::Done | Answer::Shown(_))) => return,
        };
        *counter = counter.saturating_add(1);
    }
}

// By hand: a derive is for errors, which a tally is not.
impl fmt::Display for Tally {
    fn fmt<W: fmt::Write>(&self, f: &mut fmt::Formatter<W>) -> fmt::Result {
        let Tally {
            put,
            found,
            missing,
            deleted,
            refused,
        } = self;
        write!(
            f,
            "{put} put, {found} found, {missing} not there, {deleted} deleted, {refused} refused"
        )
    }
}
