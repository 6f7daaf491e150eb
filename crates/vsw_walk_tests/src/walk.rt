//! Tests of pairs, of visits and of walks.

mod flow_tests;
mod layers;
mod look_tests;
mod packets;
mod replace_tests;
mod samples;
mod seed_tests;
mod tcp_tests;
mod trial;
mod visit_tests;
mod walk_tests;
mod wrong;
