//! Tables of steps that are tried at a desk.

ghost use Rattle.std.specs.Prelude.{◌≤◌};

use crate::cores::commands::{Asked, command};
use crate::cores::desk::{Desk, Seen};
use crate::cores::packets::{id, packet};
use crate::cores::policies::{Made, policy};
use std::alloc::Global;
use vsw_base::{Control, Dir, Fate, Ufid, Verdict};
use vsw_core::Reconciled;
use vsw_policy::Reply;

pub const PASS: Fate = Fate::Pass { len: 44 };

/// The identity of packets: from an address and port to another.
pub type Way = (Dir, (u32, u16), (u32, u16));

/// What is tried at a desk, and what must come of it. Packets are told by the place of their identity among some.
#[derive(Clone, Copy)]
pub enum Step {
    /// A packet without a control passes, as an entry or as a read.
    Passes {
        who: usize,
        moment: u64,
        entry: bool,
    },
    /// A packet passes at the first moment, as a read, and leaves a row that stands: packets go on from this port.
    Leaves {
        who: usize,
        port: u16,
    },
    /// A packet has this fate, as a read.
    Ends {
        who: usize,
        control: Control,
        moment: u64,
        fate: Fate,
    },
    /// What a look then tells.
    Sees {
        who: usize,
        seen: Seen,
    },
    /// The command of line 1 is done.
    Obeys(Asked),
    /// The command of this line has this reply.
    Replies {
        line: u32,
        asked: Asked,
        reply: Reply,
    },
    /// The entry of this number is the command of this line, or no command.
    IsEntry {
        number: usize,
        line: Option<u32>,
    },
    /// What a controller sees that looks for no packet's row.
    Counts {
        count: u32,
    },
    /// So many rows are current.
    Stand {
        rows: u32,
    },
    /// The row is compared that stands so many places behind where the search begins.
    Compares {
        who: usize,
        behind: u32,
        found: Reconciled,
    },
}

fn who(step: &Step) -> usize {
    match step {
        Step::Passes { who, .. } => *who,
        Step::Leaves { who, .. } => *who,
        Step::Ends { who, .. } => *who,
        Step::Sees { who, .. } => *who,
        Step::Compares { who, .. } => *who,
        _ => 0,
    }
}

fn id_at(ways: &[Way], place: usize) -> Option<Ufid> {
    let (dir, src, dst) = *ways.get(place)?;
    id(dir, src, dst)
}

/// Whether a packet is an entry or a read, as this says, and has this fate.
fn ends(desk: &mut Desk, id: &Ufid, control: Control, moment: u64, end: (bool, Fate)) -> bool {
    desk.send(&packet(id, control, moment)) == Some(end)
}

fn leaves(desk: &mut Desk, id: &Ufid, port: u16) -> bool {
    let row = Seen::Row {
        verdict: Verdict::Pass,
        port: Some(port),
        until: u64::MAX,
        count: 0,
    };
    ends(desk, id, Control::None, 0, (false, PASS)) && desk.look(id) == Some(row)
}

fn replies(alloc: Global, desk: &mut Desk, line: u32, asked: Asked, reply: Reply) -> bool {
    desk.ask(line, &command(alloc, asked)) == Some(reply)
}

/// Whether a step with packets of this identity comes out as it says.
fn comes_out(alloc: Global, desk: &mut Desk, id: &Ufid, step: &Step) -> bool {
    match *step {
        Step::Passes { moment, entry, .. } => ends(desk, id, Control::None, moment, (entry, PASS)),
        Step::Leaves { port, .. } => leaves(desk, id, port),
        Step::Ends {
            control,
            moment,
            fate,
            ..
        } => ends(desk, id, control, moment, (false, fate)),
        Step::Sees { seen, .. } => desk.look(id) == Some(seen),
        Step::Obeys(asked) => replies(alloc, desk, 1, asked, Reply::Ok),
        Step::Replies { line, asked, reply } => replies(alloc, desk, line, asked, reply),
        Step::IsEntry { number, line } => desk.line(number) == line,
        Step::Counts { count } => desk.looked() == Some(count),
        Step::Stand { rows } => desk.current() == rows,
        Step::Compares { behind, found, .. } => {
            behind < 8 && desk.reconcile(id, behind) == found
        }
    }
}

/// The place of the first step that doesn't come out as it says.
fn first_wrong(alloc: Global, desk: &mut Desk, ways: &[Way], steps: &[Step]) -> Option<usize> {
    for place in 0..steps.len() {
        let step = &steps[place];
        let right = match id_at(ways, who(step)) {
            Some(id) => comes_out(alloc, desk, &id, step),
            None => false,
        };
        if !right {
            return Some(place);
        }
    }
    None
}

/// The first step that doesn't come out as it says, of some that come before and of these, at a desk of this policy
/// with so many rows, where worker 0 and the controller may make so many entries each.
pub fn tried(
    alloc: Global,
    made: Made,
    rows: u32,
    permits: u32,
    ways: &[Way],
    before: &[Step],
    steps: &[Step],
) -> Option<[Option<usize>; 2]>
    requires { (8 ≤ rows) × (rows ≤ 16384) × (permits ≤ 1000) }
{
    let mut desk = Desk::open(alloc, policy(alloc, made)?, rows, permits)?;
    Some([
        first_wrong(alloc, &mut desk, ways, before),
        first_wrong(alloc, &mut desk, ways, steps),
    ])
}

/// What `tried` tells where each step comes out as it says.
pub const RIGHT: Option<[Option<usize>; 2]> = Some([None, None]);
