//! Tests of the program's words, files and endings.

mod check_tests;
mod ending_tests;
mod engine_tests;
mod offload_tests;
mod policy_tests;
mod report_tests;
mod request_tests;
mod rows;
mod running;
