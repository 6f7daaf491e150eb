//! Rounds whose records are read one by one: one of which the first record was read, and what is done after a round.

ghost use Rattle.std.specs.Prelude.{◌≡◌, ◌≤◌, ◌<◌, ◌+◌, [], length, false, true, IfOk};
ghost use Rattle.vsw_reading.specs.Reads.{IsOpen};
ghost use Rattle.vsw_reading.specs.declared.reading.Stop.TheVariants.{Full};
ghost use Rattle.vsw_replay.specs.Private.Begun.{AddsTo, BeginsRound, Follows, IsNearBegun, NearTurn, PartNear, ReadsOne, ReadsRest, why_not_of};
ghost use Rattle.vsw_replay.specs.Private.Going.{IsBetween, IsNear, IsOpened};

use crate::cut::next_cut;
use crate::ending::TraceEnd;
use crate::trace::{RECORDS_MOST, Run, Stretch, put_head, read_past};
use vsw_base::NoMemory;
use vsw_host::Host;
use vsw_pcap::Batch;
use vsw_promise::Schedule;
use vsw_reading::{Stop, fill};

/// What is done next.
#[derive(Clone, Copy)]
pub(crate) enum Turn {
    /// The round of which the first record was read, if there is one. `Full` says that there is.
    Begun(Stretch),
    /// The commands alone behind the trace, after those of the round that begins with this packet.
    Past(u32),
}

/// Reads the first record of the first round, and puts the head line.
pub(crate) fn begin_first<H: Host>(
    host: &mut H,
    schedule: &Schedule,
    run: &mut Run,
) -> Result<Stretch, TraceEnd>
    requires near { IsOpen (H.outside host.old) run.old.reading }
    requires empty { run.old.reading.batch ≡ [] }
    ensures goes { BeginsRound schedule.now (λ s start name switch. IsOpened s start (H.outside host.old) name run.old switch) (H.outside host.new) run.new result }
    ensures near { IfOk result (λ next. IsNearBegun (H.outside host.new) run.new next) }
{
    let next = next_cut(schedule, 0);
    match fill(host, &mut run.reading, 1) {
        Ok(stop) => put_head(
            host,
            run,
            Stretch {
                first: 0,
                next,
                stop,
            },
        ),
        Err(_) => Err(TraceEnd::Memory),
    }
}

/// Reads the first record of the round that begins with this packet, which is not the first.
fn begin_on<H: Host>(
    host: &mut H,
    schedule: &Schedule,
    run: &mut Run,
    first: u32,
) -> Result<Stretch, TraceEnd>
    requires near { IsOpen (H.outside host.old) run.old.reading }
    requires few { first < 1048576 }
    ensures goes { BeginsRound schedule.now (λ s start name switch. IsBetween s start (H.outside host.old) name run.old switch first) (H.outside host.new) run.new result }
    ensures near { IfOk result (λ next. IsNearBegun (H.outside host.new) run.new next) }
{
    run.reading.batch.clear();
    let next = next_cut(schedule, first);
    match fill(host, &mut run.reading, 1) {
        Ok(stop) => Ok(Stretch { first, next, stop }),
        Err(_) => Err(TraceEnd::Memory),
    }
}

/// The same, or finds that the trace has more records than it may have.
fn begin_next<H: Host>(
    host: &mut H,
    schedule: &Schedule,
    run: &mut Run,
    first: u32,
) -> Result<Stretch, TraceEnd>
    requires near { IsOpen (H.outside host.old) run.old.reading }
    requires few { first ≤ 1048576 }
    ensures goes { BeginsRound schedule.now (λ s start name switch. IsBetween s start (H.outside host.old) name run.old switch first) (H.outside host.new) run.new result }
    ensures near { IfOk result (λ next. IsNearBegun (H.outside host.new) run.new next) }
{
    if first == RECORDS_MOST {
        return read_past(host, schedule, run, first);
    }
    begin_on(host, schedule, run, first)
}

/// Why the reading goes no further, where as many records as asked for are no reason.
fn why_not_on(stop: Stop) -> Option<Stop>
    ensures { result ≡ why_not_of stop }
{
    match stop {
        Stop::Full => None,
        stop => Some(stop),
    }
}

/// How many records the batch holds.
pub(crate) fn held(batch: &Batch) -> u32
    requires { length batch.now ≤ 1048576 }
    ensures { result ≡ length batch.now }
{
    batch.len() as u32
}

/// Reads one record more of a round that isn't whole. Answers why there is none, if so.
pub(crate) fn read_one<H: Host>(
    host: &mut H,
    run: &mut Run,
    begun: Stretch,
) -> Result<Option<Stop>, NoMemory>
    requires near { IsNear (H.outside host.old) run.old begun }
    requires full { begun.stop ≡ Full }
    requires room { begun.first + length run.old.reading.batch ≤ begun.next }
    ensures goes { ReadsOne begun (H.outside host.old) run.old (H.outside host.new) run.new result }
    ensures near { IfOk result (λ stop. PartNear (H.outside host.new) run.new begun stop) }
    ensures adds { IfOk result (λ stop. AddsTo run.old.reading.batch run.new.reading.batch stop) }
{
    let held = held(&run.reading.batch);
    if held == begun.next - begun.first {
        return Ok(Some(Stop::Full));
    }
    match fill(host, &mut run.reading, held + 1) {
        Ok(stop) => Ok(why_not_on(stop)),
        Err(_) => Err(NoMemory),
    }
}

/// Whether further records of a round that was begun may follow.
fn may_go_on(begun: Stretch) -> bool
    requires { begun.first < begun.next }
    ensures more { result ≡ true → (begun.stop ≡ Full) × (begun.first + 1 < begun.next) }
    ensures none { result ≡ false → begun.stop ≡ Full → begun.next ≤ begun.first + 1 }
{
    matches!(begun.stop, Stop::Full) && begun.next - begun.first > 1
}

/// Reads the rest of a round.
pub(crate) fn read_rest<H: Host>(
    host: &mut H,
    run: &mut Run,
    begun: Stretch,
) -> Result<Stretch, TraceEnd>
    requires near { IsNearBegun (H.outside host.old) run.old begun }
    ensures goes { ReadsRest begun (H.outside host.old) run.old (H.outside host.new) run.new result }
    ensures near { IfOk result (λ next. IsNear (H.outside host.new) run.new next) }
{
    if !may_go_on(begun) {
        return Ok(begun);
    }
    match fill(host, &mut run.reading, begun.next - begun.first) {
        Ok(stop) => Ok(Stretch {
            first: begun.first,
            next: begun.next,
            stop,
        }),
        Err(_) => Err(TraceEnd::Memory),
    }
}

/// Begins the next round behind one that was put, or finds what ends the trace.
pub(crate) fn follow<H: Host>(
    host: &mut H,
    schedule: &Schedule,
    run: &mut Run,
    stretch: Stretch,
) -> Result<Turn, TraceEnd>
    requires near { IsNear (H.outside host.old) run.old stretch }
    ensures goes { Follows schedule.now stretch (H.outside host.old) run.old (H.outside host.new) run.new result }
    ensures near { IfOk result (λ turn. NearTurn (H.outside host.new) run.new turn) }
{
    match stretch.stop {
        Stop::Full => match begin_next(host, schedule, run, stretch.next) {
            Ok(begun) => Ok(Turn::Begun(begun)),
            Err(end) => Err(end),
        },
        Stop::End => Ok(Turn::Past(stretch.first)),
        Stop::Fault => Err(TraceEnd::ReadFault),
        Stop::Bad(bad) => Err(TraceEnd::Refused(bad)),
    }
}
