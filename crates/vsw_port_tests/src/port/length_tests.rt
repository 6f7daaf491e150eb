//! Packets that get long under pushed encapsulations.

use crate::port::commit_trial::{RIGHT, Sent, Step, tried};
use crate::port::layers::{BACK, Does, Given, OUT, Ruled};
use vsw_port::Stop;

/// Outbound packets of layer 10 are put in a network.
const PUT_IN: Ruled = Ruled {
    does: Does::PutIn,
    stateful: false,
    ..OUT
};

const PUT_IN_20: Ruled = Ruled {
    layer: 20,
    ..PUT_IN
};

const BACK_20: Ruled = Ruled { layer: 20, ..BACK };

const ONE: [Given; 3] = [
    Given::Open {
        layer: 10,
        pairs: 1,
    },
    Given::Group(PUT_IN),
    Given::Group(BACK),
];

const TWO: [Given; 6] = [
    Given::Open {
        layer: 10,
        pairs: 1,
    },
    Given::Group(PUT_IN),
    Given::Group(BACK),
    Given::Open {
        layer: 20,
        pairs: 1,
    },
    Given::Group(PUT_IN_20),
    Given::Group(BACK_20),
];

const ONE_PUSH: [Step; 2] = [
    Step::Becomes {
        sent: Sent::Long { whole: 65_499 },
        becomes: Ok(false),
    },
    Step::Becomes {
        sent: Sent::Long { whole: 65_500 },
        becomes: Err(Stop::Long),
    },
];

#[test]
fn one_push_makes_a_packet_long(rt: HostRuntime) {
    assert!(&rt; tried(rt.alloc(), &ONE, &ONE_PUSH) == RIGHT);
}

const TWO_PUSHES: [Step; 2] = [
    Step::Becomes {
        sent: Sent::Long { whole: 65_449 },
        becomes: Ok(false),
    },
    Step::Becomes {
        sent: Sent::Long { whole: 65_450 },
        becomes: Err(Stop::Long),
    },
];

#[test]
fn two_pushes_make_a_packet_long(rt: HostRuntime) {
    assert!(&rt; tried(rt.alloc(), &TWO, &TWO_PUSHES) == RIGHT);
}
