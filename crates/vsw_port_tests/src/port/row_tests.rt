//! Rows that answer packets of a port that one thread has: the second packet of a flow, the next one once rows were reconciled, and those
//! of flows that an entry doesn't concern.

use crate::given::{is_good, is_listed};
use crate::port::commands::{Asked, command};
use crate::port::packets::of_flow;
use std::alloc::Global;
use vsw_answer::Why;
use vsw_base::{Crossing, Dir};
use vsw_policy::{Command, Policy};
use vsw_rule::Action;
use vsw_sole::{Keeping, SolePort};

/// How many rows the port has.
const ROWS: u32 = 64;

/// How a packet is answered.
#[derive(Clone, Copy, PartialEq, Eq)]
enum By {
    Row,
    /// By the layers, which it leaves as they are, since no row could for this reason.
    Walk(Why),
    /// By the layers, which it changes.
    Entry(Why),
}

/// What is done at the port, and what must come of it.
#[derive(Clone, Copy)]
enum Step {
    /// Controller 1 adds a layer that allows all, in line 1. With nine of them a walk costs more than a row's answer.
    Opens(u16),
    /// It asks something else.
    Asks(Asked),
    /// A packet without a control, of this number and flow, which is answered so.
    Sends(u32, u16, Dir, By),
    /// Two such packets out of the port, of each of so many flows from 100 on: a walk answers the first, and a row the second.
    Scans(u16),
    /// So many rows are reconciled.
    Reconciles(u32),
    /// An export gives so many rows, good after so many entries.
    Exports(u32, usize),
}

/// A port of controller 1, at first without layers, with workers 0 and 1.
fn port(alloc: Global, keeping: Keeping) -> Option<SolePort> {
    let Ok(policy) = Policy::new(alloc, &[1]) else {
        return None;
    };
    match SolePort::open(alloc, policy, ROWS, 2, keeping) {
        Ok(port) => Some(port),
        Err(_) => None,
    }
}

/// Whether the command was done.
fn is_done(port: &mut SolePort, command: &Command) -> bool {
    if !is_listed(port.controllers(), 1) || !is_good(command) || port.reserve(1).is_err() {
        return false;
    }
    port.command(1, 1, command).is_ok()
}

/// Whether what was asked was done.
fn asks(alloc: Global, port: &mut SolePort, asked: Asked) -> bool {
    match command(alloc, asked) {
        Some(command) => is_done(port, &command),
        None => false,
    }
}

/// How the packet is answered, where it could be sent.
fn answered(port: &mut SolePort, crossing: &Crossing) -> Option<By> {
    if crossing.caller >= port.workers() || port.reserve(1).is_err() {
        return None;
    }
    let entry = port.cross(crossing).entry;
    match port.why() {
        None => Some(By::Row),
        Some(why) if entry => Some(By::Entry(why)),
        Some(why) => Some(By::Walk(why)),
    }
}

/// Whether a packet of the flow is answered so.
fn is_answered(port: &mut SolePort, number: u32, flow: u16, dir: Dir, by: By) -> bool {
    // With this word a packet of TCP asks for nothing.
    match of_flow(number, flow, dir, 4) {
        Some(crossing) => answered(port, &crossing) == Some(by),
        None => false,
    }
}

/// Whether of each of so many flows a walk answers the first packet, and a row the second.
fn scans(port: &mut SolePort, flows: u16) -> bool {
    for number in 0..flows {
        let flow = number.wrapping_add(100);
        if !is_answered(port, 0, flow, Dir::Out, By::Walk(Why::Miss))
            || !is_answered(port, 0, flow, Dir::Out, By::Row)
        {
            return false;
        }
    }
    true
}

/// Whether an export gives so many rows, good after so many entries.
fn exports(alloc: Global, port: &mut SolePort, entries: u32, rows: usize) -> bool {
    match port.export(alloc) {
        Ok(exported) => exported.count == entries && exported.rows.len() == rows,
        Err(_) => false,
    }
}

/// Whether what is done comes out as the step says.
fn comes_out(alloc: Global, port: &mut SolePort, step: &Step) -> bool {
    match *step {
        Step::Opens(layer) => asks(alloc, port, Asked::AddOpenLayer { layer }),
        Step::Asks(asked) => asks(alloc, port, asked),
        Step::Sends(number, flow, dir, by) => is_answered(port, number, flow, dir, by),
        Step::Scans(flows) => scans(port, flows),
        Step::Reconciles(rows) => {
            port.reconcile(rows);
            true
        }
        Step::Exports(entries, rows) => exports(alloc, port, entries, rows),
    }
}

/// The place of the first step that doesn't come out as it says.
fn first_wrong(alloc: Global, port: &mut SolePort, steps: &[Step]) -> Option<usize> {
    for place in 0..steps.len() {
        if !comes_out(alloc, port, &steps[place]) {
            return Some(place);
        }
    }
    None
}

/// Nine layers, at which rows pay.
const HEAVY: [Step; 9] = [
    Step::Opens(31),
    Step::Opens(32),
    Step::Opens(33),
    Step::Opens(34),
    Step::Opens(35),
    Step::Opens(36),
    Step::Opens(37),
    Step::Opens(38),
    Step::Opens(39),
];

/// A layer before them that drops inbound packets by default, and lets outbound ones through with a pair.
const PAIRED: [Step; 3] = [
    Step::Asks(Asked::AddOutLayer { layer: 10 }),
    Step::Asks(Asked::AddGroup {
        layer: 10,
        group: 1,
    }),
    Step::Asks(Asked::PutRule {
        layer: 10,
        action: Action::Allow,
        stateful: true,
    }),
];

/// The same of these steps at a new port, and then of those.
fn tried(alloc: Global, first: &[Step], steps: &[Step]) -> Option<Option<usize>> {
    tried_at(alloc, Keeping::WhereCheaper, first, steps)
}

/// The same at one that keeps rows so.
fn tried_at(
    alloc: Global,
    keeping: Keeping,
    first: &[Step],
    steps: &[Step],
) -> Option<Option<usize>> {
    let mut port = port(alloc, keeping)?;
    if first_wrong(alloc, &mut port, first).is_some() {
        return None;
    }
    Some(first_wrong(alloc, &mut port, steps))
}

/// The same with the nine layers between.
fn tried_at_nine(alloc: Global, first: &[Step], steps: &[Step]) -> Option<Option<usize>> {
    let mut port = port(alloc, Keeping::WhereCheaper)?;
    if first_wrong(alloc, &mut port, first).is_some()
        || first_wrong(alloc, &mut port, &HEAVY).is_some()
    {
        return None;
    }
    Some(first_wrong(alloc, &mut port, steps))
}

const SECOND: [Step; 7] = [
    Step::Sends(0, 3, Dir::Out, By::Walk(Why::Miss)),
    Step::Sends(0, 3, Dir::Out, By::Row),
    Step::Sends(0, 4, Dir::Out, By::Walk(Why::Miss)),
    Step::Sends(0, 4, Dir::Out, By::Row),
    Step::Sends(0, 3, Dir::Out, By::Row),
    Step::Sends(0, 3, Dir::In, By::Walk(Why::Miss)),
    Step::Sends(0, 3, Dir::In, By::Row),
];

#[test]
fn a_row_answers_the_second_packet_of_a_flow(rt: HostRuntime) {
    assert!(&rt; tried(rt.alloc(), &HEAVY, &SECOND) == Some(None));
}

const FEW: [Step; 2] = [
    Step::Sends(0, 3, Dir::Out, By::Walk(Why::Light)),
    Step::Sends(0, 3, Dir::Out, By::Walk(Why::Light)),
];

#[test]
fn no_row_is_looked_for_where_layers_are_light(rt: HostRuntime) {
    assert!(&rt; tried(rt.alloc(), &[Step::Opens(31)], &FEW) == Some(None));
}

const KEPT: [Step; 2] = [
    Step::Sends(0, 3, Dir::Out, By::Walk(Why::Miss)),
    Step::Sends(0, 3, Dir::Out, By::Row),
];

#[test]
fn a_port_that_always_keeps_rows_has_some_where_layers_are_light(rt: HostRuntime) {
    assert!(&rt; tried_at(rt.alloc(), Keeping::Always, &[Step::Opens(31)], &KEPT) == Some(None));
}

/// An added layer takes all stamps away, and the export reconciles what packets of flows 3 and 4 left. Flow 3 makes a pair in a layer that is added
/// then, so that no row of it is left until its next packet.
const EXPORTED: [Step; 13] = [
    Step::Exports(1, 0),
    Step::Sends(0, 3, Dir::Out, By::Walk(Why::Miss)),
    Step::Exports(1, 1),
    Step::Sends(0, 4, Dir::Out, By::Walk(Why::Miss)),
    Step::Opens(32),
    Step::Exports(2, 2),
    Step::Sends(0, 3, Dir::Out, By::Row),
    Step::Asks(Asked::AddOutLayer { layer: 10 }),
    Step::Asks(Asked::AddGroup {
        layer: 10,
        group: 1,
    }),
    Step::Asks(Asked::PutRule {
        layer: 10,
        action: Action::Allow,
        stateful: true,
    }),
    Step::Exports(5, 0),
    Step::Sends(1, 3, Dir::Out, By::Entry(Why::Miss)),
    Step::Exports(6, 1),
];

#[test]
fn an_export_gives_the_rows_that_are_current_once_all_were_reconciled(rt: HostRuntime) {
    assert!(&rt;
        tried_at(rt.alloc(), Keeping::Always, &[Step::Opens(31)], &EXPORTED) == Some(None)
    );
}

const SHAKEN: [Step; 13] = [
    Step::Sends(0, 1, Dir::Out, By::Walk(Why::Miss)),
    Step::Sends(0, 2, Dir::Out, By::Walk(Why::Miss)),
    Step::Sends(0, 3, Dir::Out, By::Walk(Why::Miss)),
    Step::Sends(0, 4, Dir::Out, By::Walk(Why::Miss)),
    Step::Opens(40),
    Step::Reconciles(ROWS),
    Step::Sends(0, 1, Dir::Out, By::Row),
    Step::Sends(0, 2, Dir::Out, By::Row),
    Step::Sends(0, 3, Dir::Out, By::Row),
    Step::Sends(0, 4, Dir::Out, By::Row),
    Step::Opens(41),
    Step::Sends(0, 1, Dir::Out, By::Walk(Why::Miss)),
    Step::Sends(0, 1, Dir::Out, By::Row),
];

#[test]
fn all_rows_answer_again_once_they_are_reconciled(rt: HostRuntime) {
    assert!(&rt; tried(rt.alloc(), &HEAVY, &SHAKEN) == Some(None));
}

/// Six times as many flows as there are rows.
const SCANNED: [Step; 3] = [
    Step::Scans(384),
    Step::Sends(0, 3, Dir::Out, By::Walk(Why::Miss)),
    Step::Sends(0, 3, Dir::Out, By::Row),
];

#[test]
fn rows_give_way_to_those_of_more_flows(rt: HostRuntime) {
    assert!(&rt; tried(rt.alloc(), &HEAVY, &SCANNED) == Some(None));
}

/// Packets are 50 milliseconds apart. A pair that lives for 100 seconds gets another last use by a packet more than 25
/// seconds after the one before, and the row of its flow says until then what is so.
const RENEWED: [Step; 8] = [
    Step::Sends(0, 3, Dir::Out, By::Entry(Why::Miss)),
    Step::Sends(1, 3, Dir::Out, By::Row),
    Step::Sends(300, 6, Dir::Out, By::Entry(Why::Miss)),
    Step::Sends(301, 6, Dir::Out, By::Row),
    Step::Sends(302, 3, Dir::Out, By::Row),
    Step::Sends(520, 3, Dir::Out, By::Entry(Why::Late)),
    Step::Sends(521, 6, Dir::Out, By::Row),
    Step::Sends(522, 3, Dir::Out, By::Row),
];

#[test]
fn a_renewed_pair_leaves_the_rows_of_other_flows(rt: HostRuntime) {
    assert!(&rt; tried_at_nine(rt.alloc(), &PAIRED, &RENEWED) == Some(None));
}

/// Flow 3 has a pair, which a default doesn't concern, and flow 9 comes in without one.
const SPARED: [Step; 10] = [
    Step::Sends(0, 3, Dir::Out, By::Entry(Why::Miss)),
    Step::Sends(1, 3, Dir::Out, By::Row),
    Step::Sends(2, 9, Dir::In, By::Walk(Why::Miss)),
    Step::Sends(3, 9, Dir::In, By::Row),
    Step::Asks(Asked::SetDefault {
        layer: 10,
        allow: true,
    }),
    Step::Sends(4, 3, Dir::Out, By::Row),
    Step::Sends(5, 9, Dir::In, By::Walk(Why::Miss)),
    Step::Sends(6, 9, Dir::In, By::Row),
    Step::Asks(Asked::AddGroup {
        layer: 31,
        group: 2,
    }),
    Step::Sends(7, 9, Dir::In, By::Row),
];

#[test]
fn a_command_leaves_the_rows_that_it_spares(rt: HostRuntime) {
    assert!(&rt; tried_at_nine(rt.alloc(), &PAIRED, &SPARED) == Some(None));
}
