// Tests of the format: worked examples and edges. There is nothing here but the tests.
#![tactic(auto)]

#[cfg(test)]
mod building;
#[cfg(test)]
mod checking;
#[cfg(test)]
mod directories;
#[cfg(test)]
mod hashes;
#[cfg(test)]
mod images;
#[cfg(test)]
mod reading;
#[cfg(test)]
mod values;
#[cfg(test)]
mod writing;
