// A page device whose blocks stand in numbered records.
#![tactic(auto)]

mod bytes;
mod device;
mod entry;
mod index;
mod open;
mod slotted;

pub use slotted::Slotted;
