//! Tests of headers, of whole frames, and of rules and their indexes, kept apart from the crates that they try: with tests of its own, a crate is proved once more.
#![tactic(auto)]

#[cfg(test)]
mod ether_tests;
#[cfg(test)]
mod flowid_tests;
mod frames;
#[cfg(test)]
mod ipv4_tests;
#[cfg(test)]
mod l4_tests;
#[cfg(test)]
mod layers_tests;
#[cfg(test)]
mod plain_reader;
#[cfg(test)]
mod reading_tests;
#[cfg(test)]
mod rewriting_tests;
#[cfg(test)]
mod rule;
#[cfg(test)]
mod six_frames;
#[cfg(test)]
mod six_tests;
#[cfg(test)]
mod spelling_tests;
#[cfg(test)]
mod stack_tests;
#[cfg(test)]
mod sum_tests;
#[cfg(test)]
mod whole_frames;

pub use frames::vectors;
