// How many calls were made, and how they ended.
use faults::{Fault, Refusal};
use std::fmt;

// One more.
pub fn count(counter: &mut u64) {
    *counter = counter.saturating_add(1);
}

// Of calls that read.
#[derive(Clone, Copy, Default)]
pub struct ReadTally {
    pub fetches: u64,
    pub gets: u64,
    pub steps: u64,
    pub shown: u64,
    pub none: u64,
    empty_key: u64,
    not_a_block: u64,
    bad_page: u64,
    past_limit: u64,
    no_code: u64,
    other: u64,
}

impl ReadTally {
    // How many calls there were.
    pub fn calls(&self) -> u64 {
        self.fetches
            .saturating_add(self.gets)
            .saturating_add(self.steps)
    }

    // Counts how a call ended: with something shown, with none or at the end, or refused.
    pub fn count(&mut self, answer: Result<bool, Fault>) {
        count(match answer {
            Ok(true) => &mut self.shown,
            Ok(false) => &mut self.none,
            Err(fault) => match fault.refusal {
                Refusal::EmptyKey => &mut self.empty_key,
                Refusal::NotABlock => &mut self.not_a_block,
                Refusal::BadPage => &mut self.bad_page,
                Refusal::PastLimit => &mut self.past_limit,
                Refusal::NoCode => &mut self.no_code,
                _ => &mut self.other,
            },
        });
    }
}

// By hand: a derive is for errors, which a tally is not.
impl fmt::Display for ReadTally {
    fn fmt<W: fmt::Write>(&self, f: &mut fmt::Formatter<W>) -> fmt::Result {
        let ReadTally {
            fetches,
            gets,
            steps,
            shown,
            none,
            empty_key,
            not_a_block,
            bad_page,
            past_limit,
            no_code,
            other,
        } = self;
        write!(
            f,
            "{fetches} fetches, {gets} gets, {steps} steps; {shown} showed something, {none} none; refused 1: {empty_key}, 3: {not_a_block}, 6: {bad_page}, 9: {past_limit}, 13: {no_code}, other: {other}"
        )
    }
}

// Of calls that write.
#[derive(Clone, Copy, Default)]
pub struct WriteTally {
    pub stores: u64,
    pub puts: u64,
    pub deletes: u64,
    pub flushes: u64,
    stored: u64,
    deleted: u64,
    none: u64,
    pub splits: u64,
    pub most_splits: u32,
    empty_key: u64,
    pair_too_long: u64,
    key_exists: u64,
    bad_page: u64,
    bit_below: u64,
    no_plan: u64,
    past_limit: u64,
    no_claim: u64,
    other: u64,
}

impl WriteTally {
    // How many calls there were.
    pub fn calls(&self) -> u64 {
        self.stores
            .saturating_add(self.puts)
            .saturating_add(self.deletes)
            .saturating_add(self.flushes)
    }

    // Counts how a store ended: with so many splits, or refused.
    pub fn count_store(&mut self, answer: Result<u32, Fault>) {
        match answer {
            Ok(splits) => {
                count(&mut self.stored);
                self.splits = self.splits.saturating_add(u64::from(splits));
                self.most_splits = self.most_splits.max(splits);
            }
            Err(fault) => self.count_refusal(fault),
        }
    }

    // Counts how a delete ended.
    pub fn count_delete(&mut self, answer: Result<bool, Fault>) {
        match answer {
            Ok(true) => count(&mut self.deleted),
            Ok(false) => count(&mut self.none),
            Err(fault) => self.count_refusal(fault),
        }
    }

    fn count_refusal(&mut self, fault: Fault) {
        count(match fault.refusal {
            Refusal::EmptyKey => &mut self.empty_key,
            Refusal::PairTooLong => &mut self.pair_too_long,
            Refusal::KeyExists => &mut self.key_exists,
            Refusal::BadPage => &mut self.bad_page,
            Refusal::BitBelow => &mut self.bit_below,
            Refusal::NoPlan => &mut self.no_plan,
            Refusal::PastLimit => &mut self.past_limit,
            Refusal::NoClaim => &mut self.no_claim,
            _ => &mut self.other,
        });
    }
}

impl fmt::Display for WriteTally {
    fn fmt<W: fmt::Write>(&self, f: &mut fmt::Formatter<W>) -> fmt::Result {
        let WriteTally {
            stores,
            puts,
            deletes,
            flushes,
            stored,
            deleted,
            none,
            splits,
            most_splits,
            empty_key,
            pair_too_long,
            key_exists,
            bad_page,
            bit_below,
            no_plan,
            past_limit,
            no_claim,
            other,
        } = self;
        write!(
            f,
            "{stores} stores, {puts} puts, {deletes} deletes, {flushes} flushes; {stored} stored, {splits} splits, at most {most_splits} in one store, {deleted} deleted, {none} not there; refused 1: {empty_key}, 2: {pair_too_long}, 5: {key_exists}, 6: {bad_page}, 7: {bit_below}, 8: {no_plan}, 9: {past_limit}, 10: {no_claim}, other: {other}"
        )
    }
}
