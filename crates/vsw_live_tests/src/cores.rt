//! Tests of a port's core over rows: what its commands leave, and which rows stand after packets and commands, as those see them who
//! read without the lock.

mod command_tests;
mod commands;
mod desk;
mod packets;
mod policies;
mod reconciling;
mod row_tests;
mod steps;
