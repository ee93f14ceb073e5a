//! The tests of the crates between the monomials and the session: each public call on its happy path. They stand here, and not beside the calls, so that those crates are proved once.
#![tactic(auto)]

#[cfg(test)]
mod monomials;
#[cfg(test)]
mod names;
#[cfg(test)]
mod sessions;
#[cfg(test)]
mod texts;
#[cfg(test)]
mod wide_monomials;
#[cfg(test)]
mod words;
