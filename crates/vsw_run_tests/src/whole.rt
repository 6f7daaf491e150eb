//! Runs over whole policies and packets made by hand.

mod command_tests;
mod delivery_tests;
mod edit_tests;
pub mod frames;
mod ipv6_tests;
mod length_tests;
mod pair_tests;
pub mod policies;
mod rule_tests;
pub mod running;
mod workload_tests;
