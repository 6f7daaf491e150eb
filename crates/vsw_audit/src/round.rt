//! The rounds of a report.

ghost use Rattle.std.specs.Prelude.{◌≡◌, ◌≤◌, ◌<◌, ◌+◌, ◌^◌, ℕ, List, Some, IfOk, OnOk, true, length, map};
ghost use Rattle.std.specs.List.{slice_get};
ghost use Rattle.vsw_config.specs.declared.file.PolicyFile.{PolicyFile};
ghost use Rattle.vsw_policy.specs.Sound.{Each};
ghost use Rattle.vsw_promise.specs.Jobs.{cuts, macs_of, packets_between};
ghost use Rattle.vsw_pcap.specs.declared.capture.Record.{Record};
ghost use Rattle.vsw_promise.specs.Ports.{PortSeen, ports_of};
ghost use Rattle.vsw_check.specs.Report.{AreTold, IsTold};
ghost use Rattle.vsw_audit.specs.Audit.{RoundReplays, RunReplays};
ghost use Rattle.vsw_audit.specs.Check.{checked};
ghost use Rattle.vsw_audit.specs.Private.Rounds.{AllReplay, AreSeats, Finds, IsEnd, StandFrom, aims_of, histories};
ghost use Rattle.vsw_audit.specs.Private.Tasks.{CanBeAsked};

use crate::cuts::next_cut;
use crate::dealing::{Aim, deal};
use crate::line::Files;
use crate::port::{Desk, Seat, replay_ports};
use vsw_base::{Items, Mac, NoMemory};
use vsw_frame::FrameRoom;
use vsw_report::{Loose, PortRound, Round};

/// A switch whose report is replayed.
#[derive(Drop)]
pub(crate) struct Bench {
    pub workers: u32,
    pub macs: Items<Mac>,
    pub seats: Vec<Seat>,
    pub desk: Desk,
    pub headers: FrameRoom,
    pub aims: Vec<Option<Aim>>,
    pub loose: Vec<Loose>,
}

fn same_one(a: Loose, b: Loose) -> bool
    ensures told { result ≡ true → a ≡ b }
    ensures back { a ≡ b → result ≡ true }
{
    a == b
}

fn same_loose(a: &[Loose], b: &[Loose]) -> bool
    ensures told { result ≡ true → a.now ≡ b.now }
    ensures back { a.now ≡ b.now → result ≡ true }
{
    let Some((first, rest)) = a.split_first() else {
        return b.is_empty();
    };
    let Some((other, others)) = b.split_first() else {
        return false;
    };
    if !same_one(*first, *other) {
        return false;
    }
    same_loose(rest, others)
}

/// Whether a round begins with this packet.
fn is_first(told: &Round, first: u32) -> bool
    ensures told { result ≡ true → told.now.first ≡ first }
    ensures back { told.now.first ≡ first → result ≡ true }
{
    told.first == first
}

/// Replays the rounds of all ports.
fn replay_seats(
    files: &Files<'_>,
    workers: u32,
    seats: &mut Vec<Seat>,
    desk: &mut Desk,
    headers: &mut FrameRoom,
    aims: &[Option<Aim>],
    first: u32,
    told: &[PortRound],
) -> Result<bool, NoMemory>
    requires few { length files.now.controllers.now ≤ 8 }
    requires same { Each (λ s. files.now.controllers.now ≡ s.ledger.opening.controllers) seats.old.items }
    requires can_ask { Each (CanBeAsked files.now.controllers.now) files.now.commands.now }
    requires workers { (1 ≤ workers) × (workers ≤ 16) }
    requires numbers { first + length aims.now < 2 ^ 32 }
    requires places { length seats.old.items ≤ 16 }
    requires dealt { (macs : List ℕ) × (packets : List (ℕ × Record)) × (aims.now ≡ aims_of workers macs packets) × StandFrom files.now.records.now first packets }
    requires told { Each IsTold told.now }
    ensures finds { (ps : List PortSeen) (macs : List ℕ) (packets : List (ℕ × Record)) → AreSeats ps seats.old.items → aims.now ≡ aims_of workers macs packets → StandFrom files.now.records.now first packets
        → IfOk result (λ answer. Finds (AllReplay files.now.commands.now workers macs first packets 0 ps (histories seats.old.items) told.now) (histories seats.new.items) answer) }
    ensures seats { (ps : List PortSeen) → AreSeats ps seats.old.items → AreSeats ps seats.new.items }
    ensures same { Each (λ s. files.now.controllers.now ≡ s.ledger.opening.controllers) seats.new.items }
    ensures long { length seats.new.items ≡ length seats.old.items }
{
    replay_ports(files, workers, 0, seats, desk, headers, aims, first, told)
}

/// Replays the round of the packets from one number up to another.
fn replay_round(
    files: &Files<'_>,
    bench: &mut Bench,
    first: u32,
    end: u32,
    told: &Round,
) -> Result<bool, NoMemory>
    requires few { length files.now.controllers.now ≤ 8 }
    requires same { Each (λ s. files.now.controllers.now ≡ s.ledger.opening.controllers) bench.old.seats.items }
    requires can_ask { Each (CanBeAsked files.now.controllers.now) files.now.commands.now }
    requires workers { (1 ≤ bench.old.workers) × (bench.old.workers ≤ 16) }
    requires ports { (length bench.old.seats.items ≤ 16) × (length bench.old.macs ≤ 16) }
    requires within { end ≤ length files.now.records.now }
    requires most { length files.now.records.now ≤ 1048576 }
    requires told { Each IsTold told.now.ports }
    ensures finds { (policy : PolicyFile) (next : ℕ) → AreSeats (ports_of policy) bench.old.seats.items → bench.old.macs ≡ macs_of policy → packets_between files.now.records.now first next ≡ packets_between files.now.records.now first end
        → IfOk result (λ answer. Finds (λ gs. RoundReplays (checked bench.old.workers policy files.now.commands.now) files.now.records.now first next (histories bench.old.seats.items) gs told.now) (histories bench.new.seats.items) answer) }
    ensures seats { (policy : PolicyFile) → AreSeats (ports_of policy) bench.old.seats.items → AreSeats (ports_of policy) bench.new.seats.items }
    ensures same { Each (λ s. files.now.controllers.now ≡ s.ledger.opening.controllers) bench.new.seats.items }
    ensures long { length bench.new.seats.items ≡ length bench.old.seats.items }
    ensures macs { bench.new.macs ≡ bench.old.macs }
    ensures workers { bench.new.workers ≡ bench.old.workers }
{
    let begins = is_first(told, first);
    if !begins {
        return Ok(false);
    }
    let macs = bench.macs.as_slice();
    deal(
        files.records,
        bench.workers,
        macs,
        first,
        end,
        &mut bench.headers,
        &mut bench.aims,
        &mut bench.loose,
    )?;
    let loose = told.loose.as_slice();
    let same = same_loose(loose, &bench.loose);
    if !same {
        return Ok(false);
    }
    let ports = told.ports.as_slice();
    replay_seats(
        files,
        bench.workers,
        &mut bench.seats,
        &mut bench.desk,
        &mut bench.headers,
        &bench.aims,
        first,
        ports,
    )
}

/// The number behind a round's last packet: the next cut, or how many records there are.
fn end_of(next: Option<u32>, total: u32) -> u32
    ensures value { IsEnd next total result }
    ensures within { result ≤ total }
{
    match next {
        Some(next) => next.min(total),
        None => total,
    }
}

/// The round at a place.
fn round_at(rounds: &[Round], place: usize) -> &Round
    requires { place < length rounds.now }
    ensures { slice_get rounds.now place ≡ Some result.now }
{
    &rounds[place]
}

/// Replays rounds, one at each cut.
pub(crate) fn replay_rounds(
    files: &Files<'_>,
    bench: &mut Bench,
    rounds: &[Round],
) -> Result<bool, NoMemory>
    requires few { length files.now.controllers.now ≤ 8 }
    requires same { Each (λ s. files.now.controllers.now ≡ s.ledger.opening.controllers) bench.old.seats.items }
    requires can_ask { Each (CanBeAsked files.now.controllers.now) files.now.commands.now }
    requires workers { (1 ≤ bench.old.workers) × (bench.old.workers ≤ 16) }
    requires ports { (length bench.old.seats.items ≤ 16) × (length bench.old.macs ≤ 16) }
    requires most { length files.now.records.now ≤ 1048576 }
    requires told { AreTold rounds.now }
    ensures finds { (policy : PolicyFile) → AreSeats (ports_of policy) bench.old.seats.items → bench.old.macs ≡ macs_of policy
        → IfOk result (λ answer. Finds (λ gs. RunReplays (checked bench.old.workers policy files.now.commands.now) files.now.records.now (histories bench.old.seats.items) (cuts files.now.commands.now (length files.now.records.now)) gs rounds.now) (histories bench.new.seats.items) answer) }
{
    let total = files.records.len() as u32;
    let mut cut = Some(0);
    for place in 0..rounds.len() {
        let Some(first) = cut else {
            return Ok(false);
        };
        cut = next_cut(files.commands, first, total);
        let told = round_at(rounds, place);
        let end = end_of(cut, total);
        let answer = replay_round(files, bench, first, end, told)?;
        if !answer {
            return Ok(false);
        }
    }
    Ok(cut.is_none())
}
