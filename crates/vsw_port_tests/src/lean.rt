//! Tests of the words of rows, and of what rows lean on.

mod arm_tests;
mod body_tests;
mod identity_tests;
mod key_tests;
mod layers;
mod packets;
mod random_tests;
mod rows;
mod samples;
mod trial;
