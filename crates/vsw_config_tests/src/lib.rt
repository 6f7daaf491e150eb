//! Tests of hosts and captures, and of the readers of the policy file and of the commands file, kept apart from them (with tests of its own, a crate is proved once more); and the
//! law of the generated workload: its policy is one that the switch takes, and its packets are those of their numbers.
#![tactic(auto)]

#[cfg(test)]
mod capture_tests;
#[cfg(test)]
mod command_tests;
#[cfg(test)]
mod commandfile_limit_tests;
#[cfg(test)]
mod commandfile_order_tests;
#[cfg(test)]
mod commandfile_samples;
#[cfg(test)]
mod commandfile_version_tests;
#[cfg(test)]
mod fault_tests;
#[cfg(test)]
mod file_tests;
#[cfg(test)]
mod item_tests;
mod law;
#[cfg(test)]
mod limit_tests;
#[cfg(test)]
mod line_tests;
#[cfg(test)]
mod memory_host_tests;
#[cfg(test)]
mod order_tests;
#[cfg(test)]
mod policy_tests;
#[cfg(test)]
mod real_host_tests;
#[cfg(test)]
mod samples;
#[cfg(test)]
mod source_tests;
#[cfg(test)]
mod version_tests;
#[cfg(test)]
mod workload_tests;

pub use law::laws;
