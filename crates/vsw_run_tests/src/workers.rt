//! Runs with many workers: what a gate and a watch see of them, and whether their reports are legal.

mod check_tests;
mod counts;
mod delivery_tests;
mod files;
mod flows;
mod gate_tests;
mod judge;
mod line;
mod long_tests;
mod meeting;
mod notes;
mod reading_on;
mod report_tests;
mod round_tests;
mod rounds_apart;
mod running;
mod stream_tests;
mod waiting;
mod watch_tests;
