//! Tests of transpositions, of rules and of their indexes.

mod choice_tests;
mod composition_tests;
mod field_tests;
mod groups_tests;
mod index_choice_tests;
mod index_samples;
mod interval_tests;
mod rule_tests;
mod samples;
mod transposition_tests;
mod trie_tests;
