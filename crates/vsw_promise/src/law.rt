//! What holds of rounds, whatever the input.

ghost use Rattle.vsw_promise.specs.Exist.{AlwaysRounds};
ghost use Rattle.vsw_promise.specs.Forwarded.{JobsAreAimed};
ghost use Rattle.vsw_promise.specs.Sample.{BeforeAndBeside, CommandBetween};
ghost use Rattle.vsw_promise.specs.ToldSample.{IsToldSo};

/// Each input has a report, where no packet is handed on.
pub fn rounds_exist()
    ensures always { AlwaysRounds }
{}

/// Where no packet is handed on, each packet is one job, at the port to which it goes.
pub fn jobs_alone()
    ensures aimed { JobsAreAimed }
{}

/// Lines and reports that were worked out by hand.
pub fn samples()
    ensures told { IsToldSo }
    ensures between { CommandBetween }
    ensures beside { BeforeAndBeside }
{}
