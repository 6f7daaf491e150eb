//! Tests of rows files, and of what their rows answer.
#![tactic(auto)]

#[cfg(test)]
mod answer_tests;
#[cfg(test)]
mod file_tests;
#[cfg(test)]
mod given;
#[cfg(test)]
mod refusal_tests;
