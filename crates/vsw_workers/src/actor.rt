//! What a round runs, and who is told of each job.

ghost use Rattle.std.specs.Prelude.{◌≡◌, ℕ, List, [], length, MatchBool};
ghost use Rattle.vsw_workers.specs.Rounds.{Does, Rests};

use std::alloc::Global;
use std::sync::Wait;

/// An actor with a list of jobs. One thread at a time has it; what actors share stands behind their
/// own references, and is theirs to guard.
pub trait Forwarder {
    /// What tells an actor and stays at each job, as its number.
    type What;

    /// What tells one job.
    type Job;

    ghost what: { Self → Self.What };

    ghost done: { Self → List Self.Job };

    ghost todo: { Self → List Self.Job };

    /// Does the first job that is left; false where none was.
    fn job<R: Wait>(&mut self, rt: &R, alloc: Global) -> bool
        ensures { MatchBool result (Does what done todo self.old self.new) (Rests what done todo self.old self.new) };

    /// Jobs that are left.
    fn left(&self) -> u32
        ensures { result ≡ length (todo self.now) };
}

/// Told of each job, by the thread that does it, just before and just after. An actor's number is its
/// place in the round's slice; its jobs of a round are numbered from 0. A call may wait for another actor's.
pub trait Gate {
    fn enter(&self, actor: u32, job: u32);

    fn leave(&self, actor: u32, job: u32);
}
