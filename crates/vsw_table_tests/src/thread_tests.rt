//! Four readers beside a writer, in threads of their own; each judges what it finds by a replay of the history.
ghost use Rattle.std.specs.Prelude.{◌≡◌, ◌<◌, ◌+◌, [], Some};
ghost use Rattle.vsw_table.specs.Held.{IsRead};
ghost use Rattle.vsw_table_tests.specs.Flows.{AreTallies};

use crate::flows::{Flows, count_in, entry_of, is_whole, key_of, no_tallies, scattered};
use crate::settling::{put_flow, settle};
use std::alloc::Global;
use std::thread::{Threads, join};
use vsw_table::{Look, Lookup, Opened, Pass, Writer};

/// Entries of the writer.
const ENTRIES: u32 = 100_000;

/// Looks of each reader.
const LOOKS: u32 = 250_000;

/// The history as far as a reader has replayed it: how many entries, and each flow's tally.
#[derive(Drop)]
struct Replay {
    count: u32,
    tallies: [u64; 16],
}

/// Goes on to so many entries. Whether they weren't passed before.
fn replay_to(replay: &mut Replay, count: u32) -> bool {
    if count < replay.count {
        return false;
    }
    for place in replay.count..count {
        count_in(&mut replay.tallies, entry_of(place));
    }
    replay.count = count;
    true
}

/// Looks for a row of a flow. Whether the answer is right: a hit's body is of one row, which tells the flow's tally after so many entries.
fn look_once(lookup: &Lookup<Flows>, pass: &mut Pass<Flows>, replay: &mut Replay, flow: u32) -> bool
    requires { (pass.old.table ≡ lookup.now.0) × (flow < lookup.now.2) × (flow < 16) × (pass.old.view.opening ≡ Some lookup.now.1) }
    ensures { IsRead pass.old.view pass.new.view × (pass.new.table ≡ pass.old.table) }
{
    let mut body = [0; 57];
    match lookup.look(pass, flow, &key_of(u64::from(flow)), &mut body) {
        Look::Hit { count } => replay_to(replay, count)
            && is_whole(&body, replay.tallies[flow as usize]),
        Look::Miss { count } => replay_to(replay, count),
    }
}

/// Whether each look was right.
fn read(lookup: &Lookup<Flows>, reader: Pass<Flows>, seed: u32) -> bool
    requires { (reader.table ≡ lookup.now.0) × (lookup.now.2 ≡ 16) × (reader.view.opening ≡ Some lookup.now.1) }
{
    let mut pass = reader;
    let mut replay = Replay {
        count: 0,
        tallies: [0; 16],
    };
    for place in 0..LOOKS {
        let flow = (scattered(seed.wrapping_add(place)) / 8 % 16) as u32;
        if !look_once(lookup, &mut pass, &mut replay, flow) {
            return false;
        }
    }
    true
}

/// An entry, before which the rows that it makes bad lose their stamps, and a row of some flow, in the place of one that gives way.
fn write_once(
    lookup: &Lookup<Flows>,
    writer: &mut Writer<Flows>,
    pass: &mut Pass<Flows>,
    tallies: &mut [u64; 16],
    done: u32,
)
    requires table { (writer.old.table ≡ lookup.now.0) × (pass.old.table ≡ lookup.now.0) × (lookup.now.2 ≡ 16) }
    requires opens { (writer.old.view.opening ≡ Some lookup.now.1) × (pass.old.view.opening ≡ Some lookup.now.1) }
    requires permit { (pass.old.view.number ≡ 0) × (pass.old.view.permits + done ≡ 100000) × (done < 100000) }
    requires tallies { AreTallies writer.old.view.history tallies.old }
    ensures table { (writer.new.table ≡ lookup.now.0) × (pass.new.table ≡ lookup.now.0) }
    ensures opens { (writer.new.view.opening ≡ Some lookup.now.1) × (pass.new.view.opening ≡ Some lookup.now.1) }
    ensures permit { (pass.new.view.number ≡ 0) × (pass.new.view.permits + (done + 1) ≡ 100000) }
    ensures tallies { AreTallies writer.new.view.history tallies.new }
{
    let entry = entry_of(done);
    count_in(tallies, entry);
    settle(lookup, writer, tallies);
    writer.advance(lookup, pass, &entry);
    put_flow(
        lookup,
        writer,
        tallies,
        (scattered(done) / 65_536 % 16) as u32,
    );
}

/// Writes to the end.
fn write(lookup: &Lookup<Flows>, first: Writer<Flows>, caller: Pass<Flows>) -> bool
    requires table { (first.table ≡ lookup.now.0) × (caller.table ≡ lookup.now.0) × (lookup.now.2 ≡ 16) }
    requires opens { (first.view.opening ≡ Some lookup.now.1) × (caller.view.opening ≡ Some lookup.now.1) }
    requires permit { (caller.view.number ≡ 0) × (caller.view.permits ≡ 100000) }
    requires tallies { first.view.history ≡ [] }
{
    let mut writer = first;
    let mut pass = caller;
    let mut tallies = no_tallies();
    for done in 0..ENTRIES {
        write_once(lookup, &mut writer, &mut pass, &mut tallies, done);
    }
    true
}

/// Two readers, each in a thread of its own.
fn read_twice<R: Threads + Sync>(
    rt: &R,
    lookup: &Lookup<Flows>,
    one: Pass<Flows>,
    two: Pass<Flows>,
    seed: u32,
) -> bool
    requires lookup { lookup.now.2 ≡ 16 }
    requires one { (one.table ≡ lookup.now.0) × (one.view.opening ≡ Some lookup.now.1) }
    requires two { (two.table ≡ lookup.now.0) × (two.view.opening ≡ Some lookup.now.1) }
{
    let (first, second) = join(
        rt,
        move || -> bool
            requires { (lookup.now.2 ≡ 16) × (one.table ≡ lookup.now.0) × (one.view.opening ≡ Some lookup.now.1) }
        { read(lookup, one, seed) },
        move || -> bool
            requires { (lookup.now.2 ≡ 16) × (two.table ≡ lookup.now.0) × (two.view.opening ≡ Some lookup.now.1) }
        { read(lookup, two, seed.wrapping_add(1_000_000)) },
    );
    first && second
}

/// Four readers.
fn read_four<R: Threads + Sync>(
    rt: &R,
    lookup: &Lookup<Flows>,
    one: Pass<Flows>,
    two: Pass<Flows>,
    three: Pass<Flows>,
    four: Pass<Flows>,
) -> bool
    requires lookup { lookup.now.2 ≡ 16 }
    requires one { (one.table ≡ lookup.now.0) × (one.view.opening ≡ Some lookup.now.1) }
    requires two { (two.table ≡ lookup.now.0) × (two.view.opening ≡ Some lookup.now.1) }
    requires three { (three.table ≡ lookup.now.0) × (three.view.opening ≡ Some lookup.now.1) }
    requires four { (four.table ≡ lookup.now.0) × (four.view.opening ≡ Some lookup.now.1) }
{
    let (first, second) = join(
        rt,
        move || -> bool
            requires lookup { lookup.now.2 ≡ 16 }
            requires one { (one.table ≡ lookup.now.0) × (one.view.opening ≡ Some lookup.now.1) }
            requires two { (two.table ≡ lookup.now.0) × (two.view.opening ≡ Some lookup.now.1) }
        { read_twice(rt, lookup, one, two, 1) },
        move || -> bool
            requires lookup { lookup.now.2 ≡ 16 }
            requires three { (three.table ≡ lookup.now.0) × (three.view.opening ≡ Some lookup.now.1) }
            requires four { (four.table ≡ lookup.now.0) × (four.view.opening ≡ Some lookup.now.1) }
        { read_twice(rt, lookup, three, four, 2_000_001) },
    );
    first && second
}

/// Whether each of a million looks was right, beside the writer.
fn tried<R: Threads + Sync>(rt: &R, alloc: Global) -> bool {
    let Ok(Opened { lookup, mut writer }) = Lookup::<Flows>::open(alloc, 16, &()) else {
        return false;
    };
    let mut own = writer.pass(&lookup);
    let one = writer.pass(&lookup);
    let two = writer.pass(&lookup);
    let three = writer.pass(&lookup);
    let four = writer.pass(&lookup);
    writer.meet(&lookup, &mut own, ENTRIES);
    let shared = &lookup;
    let (wrote, right) = join(
        rt,
        move || write(shared, writer, own),
        move || -> bool
            requires lookup { shared.now.2 ≡ 16 }
            requires one { (one.table ≡ shared.now.0) × (one.view.opening ≡ Some shared.now.1) }
            requires two { (two.table ≡ shared.now.0) × (two.view.opening ≡ Some shared.now.1) }
            requires three { (three.table ≡ shared.now.0) × (three.view.opening ≡ Some shared.now.1) }
            requires four { (four.table ≡ shared.now.0) × (four.view.opening ≡ Some shared.now.1) }
        { read_four(rt, shared, one, two, three, four) },
    );
    wrote && right
}

#[test]
fn answers_are_right_beside_renewals_commands_and_evictions(rt: HostRuntime) {
    assert!(&rt; tried(&rt, rt.alloc()));
}
