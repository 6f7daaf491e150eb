//! A round whose packets come by rings: its shares are given to a pool, its packets are handed over, and the shares are taken back.

ghost use Rattle.std.specs.Prelude.{◌≡◌, ◌≤◌, ◌<◌, ◌+◌, ◌++◌, ◌∷◌, ◌^◌, [], List, IfOk, IfSome, OnOk, Some, drop, length};
ghost use Rattle.vsw_actors.specs.Handed.{HasFrame};
ghost use Rattle.vsw_crew.specs.Crew.{AreReady, IsOfSome};
ghost use Rattle.vsw_crew.specs.Private.Flowing.{AreEnded, AreEnds, AreFresh, AreStreamed, AreStreams, Closes, ComeBack, HasOpened, IsPushed, MayEnd, MayPush, MayStream, Opens, needs_for, streams_of};
ghost use Rattle.vsw_crew.specs.Shift.{HasNoneBeside};
ghost use Rattle.vsw_crew.specs.StreamShares.{DoesStreamShare, StreamSeen};
ghost use Rattle.vsw_crew.specs.Streams.{FeedsLast, MayFeed};
ghost use Rattle.vsw_hands.specs.Hands.{AllDone};
ghost use Rattle.vsw_harbour.specs.Harbour.{MayAsk, callers};
ghost use Rattle.vsw_harbour.specs.HarbourOpening.{rows_in};
ghost use Rattle.vsw_harbour.specs.Meeting.{AllMeet};
ghost use Rattle.vsw_harbour.specs.Standing.{RowsStand, no_calls};
ghost use Rattle.vsw_policy.specs.Sound.{Each};
ghost use Rattle.vsw_port.specs.declared.event.Event.{Event};

use crate::before::begin;
use crate::feeding::{Feeding, give_up_all};
use crate::lines::count_first;
use crate::round::Worked;
use crate::share::Carried;
use crate::shift::{append, end_round, no_needs};
use crate::stream_share::{Frames, StreamCarried, StreamCarrier, StreamShare};
use crate::underway::Underway;
use std::alloc::Global;
use std::mem::replace;
use std::sync::Wait;
use std::time::Clock;
use vsw_actors::{Given, Handed, hand_over, no_picks};
use vsw_base::NoMemory;
use vsw_hands::{Pool, Roll};
use vsw_harbour::{Harbour, Lane, Naming, Station, Watch, meet_all};
use vsw_pcap::Batch;
use vsw_promise::Schedule;
use vsw_rings::{Drain, Feed, agree, open};
use vsw_workers::Gate;

/// By callers, so many entries for each worker, and none for the others.
fn needs_most(
    alloc: Global,
    workers: usize,
    most: u32,
    callers: usize,
) -> Result<Vec<u32>, NoMemory>
    requires within { workers ≤ callers }
    ensures { IfOk result (λ needs. needs.items ≡ needs_for workers most callers) }
{
    let Ok(mut needs) = vec![in alloc; most; workers] else {
        return Err(NoMemory);
    };
    let others = no_needs(alloc, callers - workers)?;
    append(&mut needs, &others)?;
    Ok(needs)
}

/// All callers meet the ports. Each worker may then make so many entries.
fn meet_for_most<'g, J: Naming, G, R: Wait + Clock>(
    rt: &R,
    harbour: &Harbour<'g, J, G>,
    rows: &mut Vec<Vec<Lane<Station>>>,
    most: u32,
) -> Result<(), NoMemory>
    requires stand { (hs : List (List Event)) × RowsStand 0 harbour.now.docks hs (no_calls harbour.now.docks) (rows_in rows.old.items) }
    requires size { length (rows_in rows.old.items) ≡ callers harbour.now }
    ensures met { OnOk result (AllMeet harbour.now.docks (needs_for harbour.now.workers most (callers harbour.now)) (rows_in rows.old.items) (rows_in rows.new.items)) }
{
    let needs = needs_most(harbour.alloc, harbour.workers as usize, most, rows.len())?;
    meet_all(
        rt,
        harbour.alloc,
        &harbour.docks,
        rows.as_mut_slice(),
        &needs,
    )?;
    Ok(())
}

/// Puts both ends of a ring behind others.
fn keep_ends(
    feed: Feed<Handed, Frames>,
    drain: Drain<Handed, Frames>,
    feeds: &mut Vec<Feed<Handed, Frames>>,
    drains: &mut Vec<Option<Drain<Handed, Frames>>>,
) -> Result<(), NoMemory>
    ensures feeds { OnOk result (feeds.new.items ≡ feeds.old.items ++ feed ∷ []) }
    ensures drains { OnOk result (drains.new.items ≡ drains.old.items ++ Some drain ∷ []) }
{
    if feeds.push(feed).is_err() || drains.push(Some(drain)).is_err() {
        return Err(NoMemory);
    }
    Ok(())
}

/// Opens so many rings with room for so many things each.
fn open_rings(
    alloc: Global,
    count: u32,
    room: u32,
    drains: &mut Vec<Option<Drain<Handed, Frames>>>,
) -> Result<Vec<Feed<Handed, Frames>>, NoMemory>
    requires room { 0 < room }
    requires none { drains.old.items ≡ [] }
    ensures fresh { IfOk result (λ feeds. AreFresh room feeds.items drains.new.items) }
    ensures many { IfOk result (λ feeds. length feeds.items ≡ count) }
{
    let mut feeds = Vec::new(alloc);
    for _ in 0..count {
        let (feed, drain) = open::<Handed, Frames>(alloc, room)?;
        keep_ends(feed, drain, &mut feeds, drains)?;
    }
    Ok(feeds)
}

/// Gives the shares of the first rows to the pool, those from this worker on, each with the end of its ring. In the places of these rows there
/// are none afterwards.
fn give_streams<'p, 'c, 'g, J: Naming, G: Gate + Watch, R: Wait + Clock, B: Roll>(
    rt: &R,
    harbour: &'c Harbour<'g, J, G>,
    pool: &mut Pool<'p, StreamShare<'c, 'g, J, G>, StreamCarried, StreamCarrier<'g, G>, B>,
    number: u32,
    most: u32,
    rows: &mut [Vec<Lane<Station>>],
    drains: &mut [Option<Drain<Handed, Frames>>],
) -> Result<(), NoMemory>
    requires shares { AreStreams number harbour.now.docks most rows.old drains.old }
    ensures given { OnOk result (pool.new ≡ pool.old ++ streams_of number harbour.now.docks most rows.old drains.old) }
    ensures left { OnOk result (drop (length drains.old) rows.new ≡ drop (length drains.old) rows.old) }
    ensures many { length rows.new ≡ length rows.old }
{
    if let Some((own, more)) = drains.split_first_mut() {
        if let Some((row, others)) = rows.split_first_mut() {
            let Some(drain) = own.take() else {
                return Err(NoMemory);
            };
            let taken = replace(row, Vec::new(harbour.alloc));
            let share = StreamShare::new(number, &harbour.docks, taken, drain, most);
            pool.give(rt, share)?;
            give_streams(
                rt,
                harbour,
                pool,
                number.wrapping_add(1),
                most,
                others,
                more,
            )?;
        }
    }
    Ok(())
}

/// Gives the shares of the workers to the pool. Where that fails no worker whose share was given waits for a packet.
fn give_or_give_up<'p, 'c, 'g, J: Naming, G: Gate + Watch, R: Wait + Clock, B: Roll>(
    rt: &R,
    harbour: &'c Harbour<'g, J, G>,
    pool: &mut Pool<'p, StreamShare<'c, 'g, J, G>, StreamCarried, StreamCarrier<'g, G>, B>,
    most: u32,
    rows: &mut [Vec<Lane<Station>>],
    drains: &mut [Option<Drain<Handed, Frames>>],
    feeds: &mut Vec<Feed<Handed, Frames>>,
) -> Result<(), NoMemory>
    requires shares { AreStreams 0 harbour.now.docks most rows.old drains.old }
    ensures given { OnOk result (pool.new ≡ pool.old ++ streams_of 0 harbour.now.docks most rows.old drains.old) }
    ensures left { OnOk result (drop (length drains.old) rows.new ≡ drop (length drains.old) rows.old) }
    ensures many { length rows.new ≡ length rows.old }
    ensures feeds { OnOk result (feeds.new ≡ feeds.old) }
{
    match give_streams(rt, harbour, pool, 0, most, rows, drains) {
        Ok(()) => Ok(()),
        Err(_) => {
            give_up_all(feeds);
            Err(NoMemory)
        }
    }
}

/// Opens a ring for each worker, and gives the workers' shares to the pool. Gives the rings' other ends.
fn give_all_streams<'p, 'c, 'g, J: Naming, G: Gate + Watch, R: Wait + Clock, B: Roll>(
    rt: &R,
    harbour: &'c Harbour<'g, J, G>,
    pool: &mut Pool<'p, StreamShare<'c, 'g, J, G>, StreamCarried, StreamCarrier<'g, G>, B>,
    most: u32,
    rows: &mut Vec<Vec<Lane<Station>>>,
) -> Result<Vec<Feed<Handed, Frames>>, NoMemory>
    requires idle { pool.old ≡ [] }
    requires begin { MayStream harbour.now most rows.old.items }
    ensures given { IfOk result (λ feeds. AreStreamed harbour.now most rows.old.items rows.new.items feeds.items pool.new) }
{
    let Some(room) = most.checked_add(1) else {
        return Err(NoMemory);
    };
    let mut drains = Vec::new(harbour.alloc);
    let mut feeds = open_rings(harbour.alloc, harbour.workers, room, &mut drains)?;
    give_or_give_up(
        rt,
        harbour,
        pool,
        most,
        rows.as_mut_slice(),
        drains.as_mut_slice(),
        &mut feeds,
    )?;
    Ok(feeds)
}

/// Begins a round: asks the commands before its packets, and gives the workers' shares to the pool.
pub(crate) fn open_round<'p, 'c, 'g, J: Naming, G: Gate + Watch, R: Wait + Clock, B: Roll>(
    rt: &R,
    harbour: &'c Harbour<'g, J, G>,
    pool: &mut Pool<'p, StreamShare<'c, 'g, J, G>, StreamCarried, StreamCarrier<'g, G>, B>,
    rows: Vec<Vec<Lane<Station>>>,
    schedule: &Schedule,
    first: u32,
    most: u32,
) -> Result<Feeding, NoMemory>
    requires idle { pool.old ≡ [] }
    requires run { IsOfSome harbour.now }
    requires ready { (hs : List (List Event)) × AreReady harbour.now hs (rows_in rows.items) }
    requires lines { Each (MayAsk harbour.now) schedule.now }
    requires quiet { HasNoneBeside schedule.now first }
    requires numbers { first + most < 2 ^ 32 }
    ensures feeding { IfOk result (λ f. Opens harbour.now (rows_in rows.items) schedule.now first f pool.new) }
    ensures most { IfOk result (λ f. f.most ≡ most) }
{
    let befores = count_first(harbour.alloc, &rows)?;
    let mut rows = rows;
    let firsts = begin(rt, harbour, &mut rows, schedule, first)?;
    meet_for_most(rt, harbour, &mut rows, most)?;
    let picks = no_picks(harbour.alloc, harbour.workers)?;
    let feeds = give_all_streams(rt, harbour, pool, most, &mut rows)?;
    let underway = Underway {
        first,
        befores,
        firsts,
        loose: Vec::new(harbour.alloc),
        rows,
    };
    Ok(Feeding {
        underway,
        feeds,
        picks,
        fed: 0,
        most,
    })
}

/// Puts a packet into the ring of its worker, if it has one.
fn push_to(feeds: &mut Vec<Feed<Handed, Frames>>, given: Option<Given>)
    requires open { MayPush feeds.old.items }
    requires given { IfSome given (λ g. (g.worker < length feeds.old.items) × HasFrame g.packet) }
    ensures pushed { IsPushed feeds.old.items given feeds.new.items }
{
    if let Some(Given { worker, packet }) = given {
        let feed = &mut feeds[worker as usize];
        feed.push(packet);
    }
}

/// Hands over the last packet of a batch, or keeps it if it is loose.
pub(crate) fn feed_last<'g, J: Naming, G>(
    harbour: &Harbour<'g, J, G>,
    feeding: &mut Feeding,
    packets: &Batch,
) -> Result<(), NoMemory>
    requires feeding { MayFeed harbour.now packets.now feeding.old }
    ensures feeding { OnOk result (FeedsLast harbour.now packets.now feeding.old feeding.new) }
    ensures most { feeding.new.most ≡ feeding.old.most }
{
    let at = feeding.fed;
    let captured = packets.at(at as usize);
    let given = hand_over(
        harbour.alloc,
        &mut feeding.picks,
        harbour.workers,
        harbour.macs.as_slice(),
        feeding.underway.first,
        at,
        &captured,
        &mut feeding.underway.loose,
    )?;
    push_to(&mut feeding.feeds, given);
    feeding.fed = at + 1;
    Ok(())
}

/// Tells each ring that nothing follows.
fn end_all(feeds: &mut [Feed<Handed, Frames>])
    requires may { MayEnd feeds.old }
    ensures ended { AreEnded feeds.old feeds.new }
{
    if let Some((feed, others)) = feeds.split_first_mut() {
        feed.end();
        end_all(others);
    }
}

/// Finds that each worker took what was handed over to it. Gives the rows that it is told of.
fn agree_all(
    feeds: &mut [Feed<Handed, Frames>],
    tolds: &mut [StreamCarried],
    rows: &mut Vec<Carried>,
) -> Result<(), NoMemory>
    requires may { (out : List StreamSeen) × AllDone DoesStreamShare out tolds.old × AreEnds feeds.old out }
    ensures back { OnOk result (ComeBack feeds.old tolds.old rows.old.items rows.new.items) }
{
    if let Some((told, others)) = tolds.split_first_mut() {
        let Some((feed, more)) = feeds.split_first_mut() else {
            return Err(NoMemory);
        };
        let Some(streamed) = told.done.take() else {
            return Err(NoMemory);
        };
        let mut streamed = streamed;
        agree(feed, &mut streamed.drain);
        put_row(rows, streamed.row)?;
        agree_all(more, others, rows)?;
    }
    Ok(())
}

/// Puts a row behind others.
fn put_row(rows: &mut Vec<Carried>, row: Vec<Lane<Station>>) -> Result<(), NoMemory>
    ensures { OnOk result (rows.new.items ≡ rows.old.items ++ (record { row = Some row }) ∷ []) }
{
    match rows.push(Carried { row: Some(row) }) {
        Ok(()) => Ok(()),
        Err(_) => Err(NoMemory),
    }
}

/// Ends a round: ends its rings, takes what is told of its shares, and all callers meet the ports.
pub(crate) fn close_round<'p, 'c, 'g, J: Naming, G: Gate + Watch, R: Wait + Clock, B: Roll>(
    rt: &R,
    harbour: &'c Harbour<'g, J, G>,
    pool: &mut Pool<'p, StreamShare<'c, 'g, J, G>, StreamCarried, StreamCarrier<'g, G>, B>,
    feeding: Feeding,
) -> Result<Worked, NoMemory>
    requires feeding { HasOpened harbour.now feeding pool.old }
    ensures closed { IfOk result (Closes harbour.now feeding pool.old) }
    ensures idle { OnOk result (pool.new ≡ []) }
{
    let Feeding {
        underway,
        feeds,
        ..
    } = feeding;
    let mut feeds = feeds;
    let ends = feeds.as_mut_slice();
    end_all(ends);
    let mut tolds = pool.take(rt, harbour.alloc)?;
    let mut rows = Vec::new(harbour.alloc);
    agree_all(ends, tolds.as_mut_slice(), &mut rows)?;
    end_round(rt, harbour, underway, rows)
}
