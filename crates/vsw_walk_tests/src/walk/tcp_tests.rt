//! The table of states, cell by cell.

use crate::walk::wrong::Wrong;
use vsw_base::{Control, Dir, Track};
use vsw_layerflow::{Tracked, opening, track};

const CLOSED: Tracked = Tracked::To(Track::Closed);

const HALF_OUT: Tracked = Tracked::To(Track::Half(Dir::Out));

const HALF_IN: Tracked = Tracked::To(Track::Half(Dir::In));

const OPEN: Tracked = Tracked::To(Track::Open);

const OPENING: Tracked = Tracked::To(Track::Opening);

const PLAIN: Tracked = Tracked::To(Track::Plain);

/// What the controls make of a state: RST, FIN, SYN and ACK, SYN, and none.
type Cells = (Tracked, Tracked, Tracked, Tracked, Tracked);

/// A state of a pair that an outbound packet made, the direction of a packet, and what each control
/// makes of the state.
type Row = (Track, Dir, Cells);

const ROWS: [Row; 12] = [
    (
        Track::Opening,
        Dir::Out,
        (CLOSED, HALF_OUT, OPENING, OPENING, OPENING),
    ),
    (
        Track::Opening,
        Dir::In,
        (CLOSED, HALF_IN, OPEN, OPENING, OPENING),
    ),
    (Track::Open, Dir::Out, (CLOSED, HALF_OUT, OPEN, OPEN, OPEN)),
    (Track::Open, Dir::In, (CLOSED, HALF_IN, OPEN, OPEN, OPEN)),
    (
        Track::Half(Dir::Out),
        Dir::Out,
        (CLOSED, HALF_OUT, HALF_OUT, HALF_OUT, HALF_OUT),
    ),
    (
        Track::Half(Dir::Out),
        Dir::In,
        (CLOSED, CLOSED, HALF_OUT, HALF_OUT, HALF_OUT),
    ),
    (
        Track::Half(Dir::In),
        Dir::Out,
        (CLOSED, CLOSED, HALF_IN, HALF_IN, HALF_IN),
    ),
    (
        Track::Half(Dir::In),
        Dir::In,
        (CLOSED, HALF_IN, HALF_IN, HALF_IN, HALF_IN),
    ),
    (
        Track::Closed,
        Dir::Out,
        (CLOSED, CLOSED, CLOSED, Tracked::Reopen, CLOSED),
    ),
    (
        Track::Closed,
        Dir::In,
        (CLOSED, CLOSED, CLOSED, Tracked::Reopen, CLOSED),
    ),
    (Track::Plain, Dir::Out, (PLAIN, PLAIN, PLAIN, PLAIN, PLAIN)),
    (Track::Plain, Dir::In, (PLAIN, PLAIN, PLAIN, PLAIN, PLAIN)),
];

fn is_made(row: &Row) -> bool {
    let (now, dir, (rst, fin, syn_ack, syn, none)) = *row;
    track(now, Dir::Out, Control::Rst, dir) == rst
        && track(now, Dir::Out, Control::Fin, dir) == fin
        && track(now, Dir::Out, Control::SynAck, dir) == syn_ack
        && track(now, Dir::Out, Control::Syn, dir) == syn
        && track(now, Dir::Out, Control::None, dir) == none
}

fn are_made(rows: &[Row]) -> Result<(), Wrong> {
    for place in 0..rows.len() {
        if !is_made(&rows[place]) {
            return Err(Wrong::Step(place));
        }
    }
    Ok(())
}

#[test]
fn packets_move_a_pair() -> Result<(), Wrong> {
    are_made(&ROWS)
}

/// The direction of a packet that acknowledges a SYN, and what it makes of a pair that an inbound
/// packet made.
type Reply = (Dir, Tracked);

const REPLIES: [Reply; 2] = [(Dir::Out, OPEN), (Dir::In, OPENING)];

fn are_replies(rows: &[Reply]) -> Result<(), Wrong> {
    for place in 0..rows.len() {
        let (dir, made) = rows[place];
        if track(Track::Opening, Dir::In, Control::SynAck, dir) != made {
            return Err(Wrong::Step(place));
        }
    }
    Ok(())
}

#[test]
fn replies_open_a_pair_of_inbound_packets() -> Result<(), Wrong> {
    are_replies(&REPLIES)
}

/// A control, and the state of the pair that an outbound and an inbound packet with it makes.
type Opened = (Control, Track, Track);

const OPENED: [Opened; 5] = [
    (Control::Rst, Track::Closed, Track::Closed),
    (Control::Fin, Track::Half(Dir::Out), Track::Half(Dir::In)),
    (Control::SynAck, Track::Open, Track::Open),
    (Control::Syn, Track::Opening, Track::Opening),
    (Control::None, Track::Open, Track::Open),
];

fn are_opened(rows: &[Opened]) -> Result<(), Wrong> {
    for place in 0..rows.len() {
        let (control, out, back) = rows[place];
        if opening(control, Dir::Out) != out || opening(control, Dir::In) != back {
            return Err(Wrong::Step(place));
        }
    }
    Ok(())
}

#[test]
fn packets_make_a_pair() -> Result<(), Wrong> {
    are_opened(&OPENED)
}
