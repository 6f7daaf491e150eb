//! Tests of the port that threads share and of its core: rows that stand and answer and why none does, and answers to threads, judged by a
//! replay of the port's entries.
#![tactic(auto)]

#[cfg(test)]
mod cores;
#[cfg(test)]
mod given;
#[cfg(test)]
mod live;
