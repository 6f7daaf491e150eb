//! Tests of the port that threads share: rows that answer and why none does, and answers to threads, judged by a replay of the port's entries.

mod commands;
mod controller;
mod counting;
mod crew;
mod judging;
mod million_tests;
mod opening;
mod packets;
mod replay;
mod row_tests;
mod stages;
mod thread_tests;
mod trial;
mod worker;
