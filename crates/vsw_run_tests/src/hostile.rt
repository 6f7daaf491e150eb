//! Hostile outsides over a whole program with commands, pairs and rows, by one worker and by four: calls that fail, reads of any size, files that
//! end too early, spoiled frames, and limits with one byte more.

mod fault_tests;
mod files;
mod front_tests;
mod limit_tests;
mod spoiled_tests;
