// The page that a list of pairs is written as, and the edits of a page, each written into a buffer of the caller's.
#![tactic(auto)]

mod appending;
mod bytes;
mod keeping;
mod laws;
mod packing;
mod removing;

pub use appending::{append, fits};
pub use keeping::{keep, keep_others, replace};
pub use laws::{page_laws, worked_cases};
pub use removing::without;
