//! Tests of row words, and of a port: what is admitted and left in its layers, its history, and its rows as one thread has them.
#![tactic(auto)]

#[cfg(test)]
mod given;
#[cfg(test)]
mod lean;
#[cfg(test)]
mod port;
