//! Tests of policies, of pairs and of walks, kept apart from the crates that they try: with tests of its own, a crate is proved once more.
#![tactic(auto)]

#[cfg(test)]
mod given;
#[cfg(test)]
mod policy;
#[cfg(test)]
mod walk;
