//! Tests of a port: what is admitted and left in its layers, its history, and its rows as one thread has them.

mod beside_tests;
mod commands;
mod commit_trial;
mod history_tests;
mod layers;
mod length_tests;
mod look_tests;
mod memory_tests;
mod packets;
mod pair_tests;
mod refusal_tests;
mod row_tests;
mod sole_trial;
mod trial;
