// Kinds of records, and the bytes by which a record stands in the database as the value of a key.
#![tactic(auto)]

ghost use Rattle.std.specs.Prelude.{◌≡◌, ℕ, ◌≤◌, List, ◌++◌, length, drop, Some, Option};
ghost use Rattle.records.specs.declared.TheConstants.{LONGEST};
ghost use Rattle.records.specs.Bytes.{Bytes};
ghost use Rattle.records.specs.Decodes.{Decodes};

mod member;
mod symbol;

pub use member::{Member, Sort, UnknownSort};
pub use symbol::Symbol;

// No code is longer.
pub const LONGEST: usize = 960;

// A kind of record. A record has one code; the bytes that some record codes to are decoded, to that record, and no others.
pub trait Record: Sized {
    // the bytes of a record
    ghost code: { Self → List ℕ };

    // the record that bytes stand for
    ghost decoded: { List ℕ → Option Self };

    // every number of the record is one that its field can have: true of each record that code can hold
    ghost fits: { Self → Type 0 };

    // How many bytes each code of the kind has. Only `fixed` speaks of it: what is promised below asks a record's own code for its
    // length, so that a kind whose records tell their own lengths loses these two and nothing else.
    ghost width: { ℕ };

    // Writes the code to the front of the buffer, and says how long it is. The rest of the buffer stays.
    fn encode(&self, into: &mut [u8; LONGEST]) -> usize
        ensures length { result ≡ length (code self.now) }
        ensures code { into.new ≡ code self.now ++ drop (length (code self.now)) into.old }
        ensures fits { fits self.now };

    // The record that the bytes are the code of.
    fn decode(bytes: &[u8]) -> Option<Self>
        ensures { result ≡ decoded bytes.now };

    // a code is not empty, and not too long for the buffer
    ghost bounded: { (x : Self) → fits x → (1 ≤ length (code x)) × (length (code x) ≤ LONGEST) };

    // the code of a record is decoded to it
    ghost back: { (x : Self) → fits x → decoded (code x) ≡ Some x };

    // and nothing else is decoded
    ghost only: { (bytes : List ℕ) (x : Self) → Bytes bytes → decoded bytes ≡ Some x → fits x × (code x ≡ bytes) };

    // all codes of the kind are of one length
    ghost fixed: { (x : Self) → length (code x) ≡ width };
}

// What the laws say to a caller that knows only that R is a kind of record. There is nothing to run: the contract is the point.
pub fn record_laws<R: Record>()
    ensures { (bytes : List ℕ) → Bytes bytes → Decodes R.code R.fits bytes (R.decoded bytes) }
{}
