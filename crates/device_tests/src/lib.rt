// Tests of the devices: images well-formed and not, and the numbers at the edges.
#![tactic(auto)]

#[cfg(test)]
mod answers;
#[cfg(test)]
mod edges;
#[cfg(test)]
mod images;
#[cfg(test)]
mod stacks;
