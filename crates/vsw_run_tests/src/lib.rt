//! Tests of the program over files in memory: its words, files and endings, runs over whole policies, and runs with many workers.
#![tactic(auto)]

#[cfg(test)]
mod app;
#[cfg(test)]
mod hostile;
#[cfg(test)]
mod memory;
#[cfg(test)]
mod whole;
#[cfg(test)]
mod workers;
