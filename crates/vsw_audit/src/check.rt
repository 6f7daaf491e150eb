//! Judging a report.

ghost use Rattle.std.specs.Prelude.{◌≡◌, ◌≤◌, ◌++◌, ◌∷◌, ℕ, [], IfOk, OnOk, length, map};
ghost use Rattle.vsw_check.specs.Report.{AreTold};
ghost use Rattle.vsw_commandfile.specs.Good.{AreGood};
ghost use Rattle.vsw_config.specs.Good.{IsGoodPolicy};
ghost use Rattle.vsw_port.specs.Core.{AreAtMost};
ghost use Rattle.vsw_policy.specs.Sound.{Each};
ghost use Rattle.vsw_promise.specs.Jobs.{macs_of};
ghost use Rattle.vsw_promise.specs.Ports as spec;
ghost use Rattle.vsw_audit.specs.Check.{IsCheck};
ghost use Rattle.vsw_audit.specs.Private.Rounds.{AreFirst, AreSeats, histories};

use crate::line::Files;
use crate::port::{Desk, Seat};
use crate::round::{Bench, replay_rounds};
use std::alloc::Global;
use vsw_base::{Items, NoMemory};
use vsw_check::Report;
use vsw_config::PolicyFile;
use vsw_frame::FrameRoom;
use vsw_pcap::Batch;
use vsw_port::Ledger;
use vsw_promise::{Port, Schedule, macs, ports_of};

fn push(seats: &mut Vec<Seat>, seat: Seat) -> Result<(), NoMemory>
    ensures { OnOk result (seats.new.items ≡ seats.old.items ++ seat ∷ []) }
{
    match seats.push(seat) {
        Ok(()) => Ok(()),
        Err(_) => Err(NoMemory),
    }
}

/// The ports before the first round.
fn seats_of(alloc: Global, made: Items<Port>) -> Result<Vec<Seat>, NoMemory>
    requires fresh { Each (λ p. AreAtMost 0 p.policy.layers) made }
    ensures { IfOk result (λ seats. AreFirst made seats.items) }
{
    let mut seats = Vec::new(alloc);
    for port in made.into_vec() {
        let seat = Seat {
            number: port.number,
            ledger: Ledger::open(alloc, port.policy),
        };
        push(&mut seats, seat)?;
    }
    Ok(seats)
}

/// A switch before the first round.
fn open(alloc: Global, workers: u32, policy: &PolicyFile) -> Result<Bench, NoMemory>
    requires good { IsGoodPolicy policy.now }
    ensures seats { IfOk result (λ bench. AreSeats (spec.ports_of policy.now) bench.seats.items) }
    ensures first { IfOk result (λ bench. histories bench.seats.items ≡ map (λ p. []) (spec.ports_of policy.now)) }
    ensures macs { IfOk result (λ bench. bench.macs ≡ macs_of policy.now) }
    ensures workers { IfOk result (λ bench. bench.workers ≡ workers) }
{
    let made = ports_of(alloc, policy)?;
    let macs = macs(alloc, made.as_slice())?;
    Ok(Bench {
        workers,
        macs,
        seats: seats_of(alloc, made)?,
        desk: Desk::new(alloc)?,
        headers: FrameRoom::new(),
        aims: Vec::new(alloc),
        loose: Vec::new(alloc),
    })
}

/// Whether a report is one of a run with so many workers over a policy, commands and a trace. It is replayed, line by line, by the layers alone: nothing
/// of the report is trusted, and no order of calls is tried but that of its lines. Each packet is cut into its headers twice, once to be dealt to its
/// port and once at its line; each caller's place goes once over its port's tasks of a round.
pub fn check_report(
    alloc: Global,
    workers: u32,
    policy: &PolicyFile,
    commands: &Schedule,
    records: &Batch,
    report: &Report,
) -> Result<bool, NoMemory>
    requires workers { (1 ≤ workers) × (workers ≤ 16) }
    requires policy { IsGoodPolicy policy.now }
    requires commands { AreGood policy.now commands.now }
    requires records { length records.now ≤ 1048576 }
    requires told { AreTold report.now.rounds }
    ensures check { IfOk result (λ answer. IsCheck workers policy.now commands.now records.now report.now.rounds answer) }
{
    let mut bench = open(alloc, workers, policy)?;
    let files = Files {
        controllers: policy.controllers.as_slice(),
        commands,
        records,
    };
    replay_rounds(&files, &mut bench, report.rounds.as_slice())
}
