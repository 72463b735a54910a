// A page of pairs: which pages are good, what they hold, and where a key's value lies.
#![tactic(auto)]

mod checking;
mod page;
mod reading;

pub use page::{PAGE, PairPage, Place};
pub use reading::view;
