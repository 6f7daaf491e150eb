//! A round whose packets are being read and handed over.

use crate::stream_share::Frames;
use crate::underway::Underway;
use vsw_actors::{Handed, Pick};
use vsw_rings::Feed;

/// A round of which the workers' shares are out, each with the end of a ring, while its packets are read.
#[derive(Drop)]
pub struct Feeding {
    pub(crate) underway: Underway,
    /// By workers, what was handed over: the ring's other end, and picks of the round's packets.
    pub(crate) feeds: Vec<Feed<Handed, Frames>>,
    pub(crate) picks: Vec<Vec<Pick>>,
    /// How many packets were read, and how many there may be.
    pub(crate) fed: u32,
    pub(crate) most: u32,
}

/// Tells each ring that nothing follows, if it can be told.
pub(crate) fn give_up_all(feeds: &mut Vec<Feed<Handed, Frames>>) {
    for place in 0..feeds.len() {
        let feed = &mut feeds[place];
        feed.give_up();
    }
}

impl Feeding {
    /// Gives the round up: no worker waits for a further packet.
    pub fn give_up(self) {
        let Feeding { feeds, .. } = self;
        let mut feeds = feeds;
        give_up_all(&mut feeds);
    }
}
