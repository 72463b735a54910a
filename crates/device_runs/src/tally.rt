// How many calls were made, and how they ended.
use crate::counts::count;
use crate::model::Answer;
use faults::Refusal;
use std::fmt;

#[derive(Clone, Copy, Default)]
pub struct Tally {
    calls: u64,
    accepted: u64,
    not_a_block: u64,
    past_limit: u64,
    no_claim: u64,
    not_held: u64,
    other: u64,
}

impl Tally {
    pub fn calls(&self) -> u64 {
        self.calls
    }

    // Counts a call.
    pub fn count(&mut self, answer: Answer) {
        count(&mut self.calls);
        count(match answer {
            Ok(()) => &mut self.accepted,
            Err(fault) => match fault.refusal {
                Refusal::NotABlock => &mut self.not_a_block,
                Refusal::PastLimit => &mut self.past_limit,
                Refusal::NoClaim => &mut self.no_claim,
                Refusal::NotHeld => &mut self.not_held,
                _ => &mut self.other,
            },
        });
    }
}

// By hand: a derive is for errors, which a tally is not.
impl fmt::Display for Tally {
    fn fmt<W: fmt::Write>(&self, f: &mut fmt::Formatter<W>) -> fmt::Result {
        let Tally {
            calls,
            accepted,
            not_a_block,
            past_limit,
            no_claim,
            not_held,
            other,
        } = self;
        write!(
            f,
            "{calls} calls, {accepted} accepted; refused 3: {not_a_block}, 9: {past_limit}, 10: {no_claim}, 11: {not_held}, other: {other}"
        )
    }
}
