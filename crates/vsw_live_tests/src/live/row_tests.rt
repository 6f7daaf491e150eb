//! Rows that answer, and why none does.

ghost use Rattle.vsw_live.specs.Ports.{AreNewPasses, StandsAt};
ghost use Rattle.vsw_live_tests.specs.Trials.{IsOpened, IsTried};

use crate::live::controller::Controller;
use crate::live::opening::open;
use crate::live::packets::{Packet, beside, query};
use crate::live::worker::{Answered, By, Worker};
use std::alloc::Global;
use std::marker::Brand;
use std::sync::Wait;
use vsw_answer::Why;
use vsw_base::{Cause, Control, Dir, Fate};
use vsw_flows::PortStory;
use vsw_live::{LivePort, Naming, OpenPort};
use vsw_rule::Action;
use vsw_table::Pass;

const PASS: Fate = Fate::Pass { len: 44 };

/// Rule 5 dropped the packet.
const BY_RULE: Fate = Fate::Drop(Cause::Rule {
    controller: 1,
    layer: 10,
    group: 1,
    rule: 5,
});

/// No rule let the packet in.
const BY_DEFAULT: Fate = Fate::Drop(Cause::Default {
    controller: 1,
    layer: 10,
    dir: Dir::In,
});

/// What worker 0 or controller 1 does, and what must come of it. Worker 0 sends the query.
#[derive(Clone, Copy)]
enum Step {
    /// Layer 10 is added with group 1, whose rule 5 allows. That is the third entry.
    SetUp {
        stateful: bool,
    },
    /// Rule 5 becomes one that drops.
    Drops,
    /// Layer 20, which lets all pass, is added behind, with group 3 for packets into the port: two entries.
    AddsBehind,
    /// Group 3 of layer 20 gets a rule that allows.
    PutsBehind,
    /// Layer 20 goes.
    RemovesBehind,
    /// All rows are reconciled.
    Reconciles,
    /// A row answers a packet without a control.
    Row {
        dir: Dir,
        moment: u64,
        fate: Fate,
        count: u32,
    },
    /// A row answers a packet out of the port while the port's lock is held.
    RowWhileHeld {
        moment: u64,
        fate: Fate,
        count: u32,
    },
    /// The layers answer a packet, which is an entry or a read.
    Layers {
        dir: Dir,
        control: Control,
        moment: u64,
        fate: Fate,
        count: u32,
        entry: bool,
        why: Why,
    },
    /// A packet of another flow out of the port passes: answered by a row, or for this reason by the layers.
    Beside {
        moment: u64,
        count: u32,
        entry: bool,
        why: Option<Why>,
    },
    /// A row answers a packet out of the port, or the layers do after a miss, as a read.
    Either {
        moment: u64,
        count: u32,
    },
    /// The last frame left as it came.
    Leaves,
    /// An export gives so many rows, good after so many entries.
    Exports {
        rows: usize,
        count: u32,
    },
}

/// Whether a packet was answered so.
fn is_answered(
    answered: &Option<Answered>,
    fate: Fate,
    count: u32,
    entry: bool,
    why: Option<Why>,
) -> bool {
    match answered {
        Some(answered) => {
            answered.fate == fate
                && answered.count == count
                && answered.entry == entry
                && answered.why == why
        }
        None => false,
    }
}

/// The packet of a step, if the worker sends one.
fn packet(step: &Step) -> Option<Packet> {
    match *step {
        Step::Row { dir, moment, .. } => Some(query(dir, Control::None, moment)),
        Step::Layers {
            dir,
            control,
            moment,
            ..
        } => Some(query(dir, control, moment)),
        Step::RowWhileHeld { moment, .. } => Some(query(Dir::Out, Control::None, moment)),
        Step::Either { moment, .. } => Some(query(Dir::Out, Control::None, moment)),
        Step::Beside { moment, .. } => Some(beside(moment)),
        _ => None,
    }
}

/// Whom the packet of a step asks.
fn by_of(step: &Step) -> By<'static> {
    match step {
        Step::RowWhileHeld { .. } => By::Held,
        _ => By::Two,
    }
}

/// Whether the packet of a step was answered as it says.
fn is_told(answered: &Option<Answered>, step: &Step) -> bool {
    match *step {
        Step::Row { fate, count, .. } => is_answered(answered, fate, count, false, None),
        Step::RowWhileHeld { fate, count, .. } => is_answered(answered, fate, count, false, None),
        Step::Layers {
            fate,
            count,
            entry,
            why,
            ..
        } => is_answered(answered, fate, count, entry, Some(why)),
        Step::Beside {
            count,
            entry,
            why,
            ..
        } => is_answered(answered, PASS, count, entry, why),
        Step::Either { count, .. } => {
            is_answered(answered, PASS, count, false, None)
                || is_answered(answered, PASS, count, false, Some(Why::Miss))
        }
        _ => false,
    }
}

/// Whether what the worker does comes out as a step says.
fn comes_out<J: Naming, R: Wait>(
    rt: &R,
    alloc: Global,
    worker: &mut Worker<'_, J>,
    step: &Step,
) -> bool {
    if let Step::Exports { rows, count } = *step {
        return worker.export(rt, alloc) == Some((rows, count));
    }
    match packet(step) {
        Some(packet) => is_told(&worker.send(rt, by_of(step), &packet), step),
        None => worker.left_as_it_came(),
    }
}

/// Whether the layer is set up with a rule that allows.
fn is_set_up<J: Naming, R: Wait>(
    rt: &R,
    alloc: Global,
    controller: &mut Controller<'_, J>,
    stateful: bool,
) -> bool {
    if !controller.set_up(rt, alloc, 60, 10) {
        return false;
    }
    match controller.put(rt, alloc, Action::Allow, stateful) {
        Some(told) => told.count == 2,
        None => false,
    }
}

/// All rows are reconciled.
fn is_reconciled<J: Naming, R: Wait>(rt: &R, controller: &Controller<'_, J>) -> bool {
    controller.reconcile(rt);
    true
}

/// Whether what the controller does comes out as a step says.
fn is_obeyed<J: Naming, R: Wait>(
    rt: &R,
    alloc: Global,
    controller: &mut Controller<'_, J>,
    step: &Step,
) -> bool {
    match *step {
        Step::SetUp { stateful } => is_set_up(rt, alloc, controller, stateful),
        Step::Drops => controller.put(rt, alloc, Action::Drop, false).is_some(),
        Step::AddsBehind => controller.add_behind(rt, alloc),
        Step::PutsBehind => controller.put_behind(rt, alloc).is_some(),
        Step::RemovesBehind => controller.remove_behind(rt).is_some(),
        Step::Reconciles => is_reconciled(rt, controller),
        _ => false,
    }
}

/// Whether the controller does this step.
fn is_order(step: &Step) -> bool {
    match step {
        Step::SetUp { .. } => true,
        Step::Drops => true,
        Step::AddsBehind => true,
        Step::PutsBehind => true,
        Step::RemovesBehind => true,
        Step::Reconciles => true,
        _ => false,
    }
}

/// The place of the first step that doesn't come out as it says.
fn first_wrong<J: Naming, R: Wait>(
    rt: &R,
    alloc: Global,
    worker: &mut Worker<'_, J>,
    controller: &mut Controller<'_, J>,
    steps: &[Step],
) -> Option<usize> {
    for place in 0..steps.len() {
        let step = &steps[place];
        let is_right = if is_order(step) {
            is_obeyed(rt, alloc, controller, step)
        } else {
            comes_out(rt, alloc, worker, step)
        };
        if !is_right {
            return Some(place);
        }
    }
    None
}

/// Tries the steps with worker 0 beside the controller.
fn try_worker<J: Naming, R: Wait>(
    rt: &R,
    alloc: Global,
    port: &LivePort<J>,
    passes: &mut Vec<Pass<PortStory>>,
    controller: &mut Controller<'_, J>,
    steps: &[Step],
) -> Option<Option<usize>>
    requires new { AreNewPasses port.now.looking 0 passes.old.items }
{
    match Worker::new(rt, alloc, port, passes, 0, 0) {
        Some(mut worker) => Some(first_wrong(rt, alloc, &mut worker, controller, steps)),
        None => None,
    }
}

fn try_on<J: Naming, R: Wait>(
    rt: &R,
    alloc: Global,
    port: &LivePort<J>,
    passes: &mut Vec<Pass<PortStory>>,
    steps: &[Step],
) -> Option<Option<usize>>
    requires port { IsTried port.now.looking }
    requires new { AreNewPasses port.now.looking 0 passes.old.items }
{
    match Controller::new(rt, alloc, port, passes) {
        Some(mut controller) => try_worker(rt, alloc, port, passes, &mut controller, steps),
        None => None,
    }
}

fn try_port<J: Naming, R: Wait>(
    rt: &R,
    alloc: Global,
    opened: OpenPort,
    steps: &[Step],
) -> Option<Option<usize>>
    requires opened { IsOpened opened }
    requires named { StandsAt J.ports 0 opened.port }
{
    let (port, mut passes) = opened.named::<J>(0);
    try_on(rt, alloc, &port, &mut passes, steps)
}

/// The first step that doesn't come out as it says, at a new port.
fn tried<R: Wait>(rt: &R, alloc: Global, steps: &[Step]) -> Option<Option<usize>> {
    let opened = open(alloc)?;
    try_port::<Brand, _>(rt, alloc, opened, steps)
}

const ANSWERS: [Step; 9] = [
    Step::SetUp { stateful: false },
    Step::Layers {
        dir: Dir::Out,
        control: Control::None,
        moment: 0,
        fate: PASS,
        count: 3,
        entry: false,
        why: Why::Miss,
    },
    Step::Row {
        dir: Dir::Out,
        moment: 1_000,
        fate: PASS,
        count: 3,
    },
    Step::Leaves,
    Step::Row {
        dir: Dir::Out,
        moment: 2_000,
        fate: PASS,
        count: 3,
    },
    Step::Layers {
        dir: Dir::Out,
        control: Control::Syn,
        moment: 2_000,
        fate: PASS,
        count: 3,
        entry: false,
        why: Why::Control,
    },
    Step::Drops,
    Step::Layers {
        dir: Dir::Out,
        control: Control::None,
        moment: 3_000,
        fate: BY_RULE,
        count: 4,
        entry: false,
        why: Why::Miss,
    },
    Step::Row {
        dir: Dir::Out,
        moment: 3_000,
        fate: BY_RULE,
        count: 4,
    },
];

#[test]
fn a_packet_leaves_a_row_that_answers_the_next_ones(rt: HostRuntime) {
    assert!(&rt; tried(&rt, rt.alloc(), &ANSWERS) == Some(None));
}

/// A command takes the row away, and a packet leaves it anew.
const EXPORTED: [Step; 9] = [
    Step::SetUp { stateful: false },
    Step::Exports { rows: 0, count: 3 },
    Step::Beside {
        moment: 0,
        count: 3,
        entry: false,
        why: Some(Why::Miss),
    },
    Step::Exports { rows: 1, count: 3 },
    Step::Drops,
    Step::Exports { rows: 0, count: 4 },
    Step::Reconciles,
    Step::Exports { rows: 1, count: 4 },
    Step::Layers {
        dir: Dir::Out,
        control: Control::None,
        moment: 3_000,
        fate: BY_RULE,
        count: 4,
        entry: false,
        why: Why::Miss,
    },
];

#[test]
fn an_export_gives_the_rows_that_are_current(rt: HostRuntime) {
    assert!(&rt; tried(&rt, rt.alloc(), &EXPORTED) == Some(None));
}

const HELD: [Step; 4] = [
    Step::SetUp { stateful: false },
    Step::Layers {
        dir: Dir::Out,
        control: Control::None,
        moment: 0,
        fate: PASS,
        count: 3,
        entry: false,
        why: Why::Miss,
    },
    Step::RowWhileHeld {
        moment: 1_000,
        fate: PASS,
        count: 3,
    },
    Step::Leaves,
];

#[test]
fn a_row_answers_while_the_lock_is_held(rt: HostRuntime) {
    assert!(&rt; tried(&rt, rt.alloc(), &HELD) == Some(None));
}

const LATE: [Step; 5] = [
    Step::SetUp { stateful: true },
    Step::Layers {
        dir: Dir::Out,
        control: Control::None,
        moment: 0,
        fate: PASS,
        count: 3,
        entry: true,
        why: Why::Miss,
    },
    Step::Either {
        moment: 1,
        count: 4,
    },
    Step::Row {
        dir: Dir::Out,
        moment: 2,
        fate: PASS,
        count: 4,
    },
    Step::Layers {
        dir: Dir::Out,
        control: Control::None,
        moment: 60_000_001,
        fate: PASS,
        count: 4,
        entry: true,
        why: Why::Late,
    },
];

#[test]
fn a_packet_by_a_pair_is_late_after_its_last_use(rt: HostRuntime) {
    assert!(&rt; tried(&rt, rt.alloc(), &LATE) == Some(None));
}

/// The last use of one flow's pair is renewed.
const RENEWED: [Step; 6] = [
    Step::SetUp { stateful: true },
    Step::Layers {
        dir: Dir::Out,
        control: Control::None,
        moment: 0,
        fate: PASS,
        count: 3,
        entry: true,
        why: Why::Miss,
    },
    Step::Beside {
        moment: 0,
        count: 4,
        entry: true,
        why: Some(Why::Miss),
    },
    Step::Beside {
        moment: 1,
        count: 5,
        entry: false,
        why: None,
    },
    Step::Layers {
        dir: Dir::Out,
        control: Control::None,
        moment: 60_000_001,
        fate: PASS,
        count: 5,
        entry: true,
        why: Why::Late,
    },
    Step::Beside {
        moment: 2,
        count: 6,
        entry: false,
        why: None,
    },
];

#[test]
fn a_renewed_pair_leaves_the_rows_of_other_flows(rt: HostRuntime) {
    assert!(&rt; tried(&rt, rt.alloc(), &RENEWED) == Some(None));
}

/// A rule comes in layer 20, for packets into the port.
const SPARED: [Step; 7] = [
    Step::SetUp { stateful: false },
    Step::AddsBehind,
    Step::Layers {
        dir: Dir::Out,
        control: Control::None,
        moment: 0,
        fate: PASS,
        count: 5,
        entry: false,
        why: Why::Miss,
    },
    Step::Layers {
        dir: Dir::In,
        control: Control::None,
        moment: 0,
        fate: BY_DEFAULT,
        count: 5,
        entry: false,
        why: Why::Miss,
    },
    Step::PutsBehind,
    Step::Row {
        dir: Dir::Out,
        moment: 0,
        fate: PASS,
        count: 6,
    },
    Step::Layers {
        dir: Dir::In,
        control: Control::None,
        moment: 0,
        fate: BY_DEFAULT,
        count: 6,
        entry: false,
        why: Why::Miss,
    },
];

#[test]
fn a_command_leaves_the_rows_that_it_spares(rt: HostRuntime) {
    assert!(&rt; tried(&rt, rt.alloc(), &SPARED) == Some(None));
}

/// A layer takes the stamps of all rows when it comes, and when it goes.
const KEPT: [Step; 9] = [
    Step::SetUp { stateful: false },
    Step::Layers {
        dir: Dir::In,
        control: Control::None,
        moment: 0,
        fate: BY_DEFAULT,
        count: 3,
        entry: false,
        why: Why::Miss,
    },
    Step::Layers {
        dir: Dir::Out,
        control: Control::None,
        moment: 0,
        fate: PASS,
        count: 3,
        entry: false,
        why: Why::Miss,
    },
    Step::AddsBehind,
    Step::Layers {
        dir: Dir::Out,
        control: Control::None,
        moment: 0,
        fate: PASS,
        count: 5,
        entry: false,
        why: Why::Miss,
    },
    Step::RemovesBehind,
    Step::Reconciles,
    Step::Row {
        dir: Dir::Out,
        moment: 0,
        fate: PASS,
        count: 6,
    },
    Step::Row {
        dir: Dir::In,
        moment: 0,
        fate: BY_DEFAULT,
        count: 6,
    },
];

#[test]
fn all_rows_that_fell_are_compared_again_and_answer(rt: HostRuntime) {
    assert!(&rt; tried(&rt, rt.alloc(), &KEPT) == Some(None));
}
