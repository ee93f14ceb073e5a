//! Tests of the division by workers and of its shared merge, through their public calls. They stand in a crate of their own, so that each of those crates is proved once.
#![tactic(auto)]

#[cfg(test)]
mod alone;
#[cfg(test)]
mod answers;
#[cfg(test)]
mod divisions;
#[cfg(test)]
mod gates;
#[cfg(test)]
mod lines;
#[cfg(test)]
mod merges;
#[cfg(test)]
mod polys;
#[cfg(test)]
mod powers;
#[cfg(test)]
mod stalls;
#[cfg(test)]
mod sums;
#[cfg(test)]
mod workers;
