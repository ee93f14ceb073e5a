//! Tests of the crates of threads, through their public calls. They stand in a crate of their own, so that each of those crates is proved once.
#![tactic(auto)]

#[cfg(test)]
mod gates;
#[cfg(test)]
mod heads;
#[cfg(test)]
mod lines;
#[cfg(test)]
mod merges;
#[cfg(test)]
mod products;
#[cfg(test)]
mod rings;
#[cfg(test)]
mod rows;
#[cfg(test)]
mod squares;
#[cfg(test)]
mod turnstiles;
#[cfg(test)]
mod workers;
