//! What a layer makes of a packet, and what decides it.

use vsw_base::{Moment, Track, Verdict};
use vsw_layerflow::Pair;
use vsw_rule::{Action, Rule};

/// A change that a packet wants of a layer's pairs.
#[derive(Clone, Copy, Debug, PartialEq, Eq)]
pub enum Want {
    /// A pair of its flow.
    Make(Pair),
    /// Another state or last use of the pair of this number.
    Touch {
        number: u32,
        state: Track,
        last: Moment,
    },
}

/// What a layer makes of a packet.
#[derive(Clone, Copy, Debug, PartialEq, Eq)]
pub enum Visit {
    /// It is dropped: by a rule, or by the layer's default.
    Stops(Verdict),
    /// It goes on, edited by this action. The pair of the number that it re-opens leaves.
    Goes {
        action: Action,
        leaves: Option<u32>,
        wants: Option<Want>,
    },
}

/// What a layer decides about a packet. It lends the rule or the pair, so that nothing large is made on a
/// packet's way. `leaves` is the pair that the packet re-opens, which then leaves.
#[derive(Clone, Copy)]
pub enum Decision<'a> {
    /// It is dropped: by a rule, or by the layer's default.
    Drops(Verdict),
    /// The layer's default lets it go on as it is.
    Allows {
        leaves: Option<&'a Pair>,
    },
    /// A rule of the group of this number lets it go on, edited by its action.
    ByRule {
        group: u16,
        rule: &'a Rule,
        leaves: Option<&'a Pair>,
    },
    /// The pair of its direction and key lets it go on, and gets this state.
    ByPair {
        pair: &'a Pair,
        state: Track,
    },
}
