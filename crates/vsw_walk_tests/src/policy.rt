//! Tests of policies and of their layers.

mod commands;
mod group_tests;
mod layer_tests;
mod pair_tests;
mod place_tests;
mod rule_tests;
mod told;
mod trial;
mod wrong;
