//! What holds of the workload.

ghost use Rattle.vsw_config_tests.specs.Good.{IsRead};

/// The workload's policy is read without a fault, so only want of memory keeps a run from it.
pub fn laws()
    ensures { IsRead }
{}
