// Tests of the database: what its calls answer and refuse, and what they leave on the device and in the caller's buffer.
#![tactic(auto)]

#[cfg(test)]
mod building;
#[cfg(test)]
mod deletes;
#[cfg(test)]
mod fetches;
#[cfg(test)]
mod gets;
#[cfg(test)]
mod lists;
#[cfg(test)]
mod lookups;
#[cfg(test)]
mod puts;
#[cfg(test)]
mod refusals;
#[cfg(test)]
mod stacks;
#[cfg(test)]
mod steps;
#[cfg(test)]
mod store_refusals;
#[cfg(test)]
mod stores;
