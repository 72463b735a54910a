ghost use Rattle.std.specs.Prelude.{◌≡◌, ◌<◌, None, Some, is_some};

use std::marker::Model;

// The record that a number has, if it has one. One more than the record in four bytes: an Option takes eight, and with it the
// index took twice the memory and its making twice the time.
#[derive(Clone, Copy)]
pub(crate) struct Entry {
    more: u32,
}

impl Model for Entry {
    ghost use Rattle.std.specs.Prelude.{ℕ, Option};
    ghost use Rattle.slotted.specs.Table.{record_of, slot_of, slot_of-record_of};
    ghost use Rattle.std.proofs.Common.{ap};

    ghost Value = { Option ℕ };

    ghost view = { λ e. record_of e.more };

    ghost inverse = { λ k. record { more = slot_of k } };

    ghost inverse_ok = { λ e _. ap (λ (m : ℕ). record { more = m }) (slot_of-record_of e.more) };
}

impl Entry {
    // That of a number that has no record.
    pub(crate) fn none() -> Entry
        ensures { result ≡ None }
    {
        Entry { more: 0 }
    }

    // That of a number that has this record.
    pub(crate) fn of(k: u32) -> Entry
        requires { k < u32.MAX }
        ensures { result ≡ Some k }
    {
        Entry { more: k + 1 }
    }

    // The record.
    pub(crate) fn record(self) -> Option<u32>
        ensures { result ≡ self }
    {
        self.more.checked_sub(1)
    }

    // Whether the number has one.
    pub(crate) fn is_some(&self) -> bool
        ensures { result ≡ is_some self.now }
    {
        self.more != 0
    }
}
