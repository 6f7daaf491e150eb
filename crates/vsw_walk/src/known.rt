//! A packet of a pair.

ghost use Rattle.std.specs.Prelude.{◌≡◌, option_map};
ghost use Rattle.vsw_walk.specs.Known as spec;
ghost use Rattle.vsw_walk.specs.declared.outcome.Want.TheVariants.{Touch};

use vsw_base::{Dir, Moment, Set, Track};
use vsw_layerflow::{Pair, due};
use vsw_policy::LayerSpec;

fn is_same_state(a: Track, b: Track) -> bool
    ensures { result ≡ spec.same_state a b }
{
    match (a, b) {
        (Track::Plain, Track::Plain)
        | (Track::Opening, Track::Opening)
        | (Track::Open, Track::Open)
        | (Track::Closed, Track::Closed) => true,
        (Track::Half(a), Track::Half(b)) => a == b,
        _ => false,
    }
}

/// What the pair writes into packets of this direction.
#[inline(always)]
pub fn set_towards(pair: &Pair, dir: Dir) -> &Set
    ensures { result.now ≡ spec.set_towards dir pair.now }
{
    if dir == pair.dir {
        &pair.forward_set
    } else {
        &pair.reverse_set
    }
}

/// The last use that a packet of this moment leaves the pair, where it changes the pair by moving it to
/// this state.
#[inline(always)]
pub fn last_use(times: &LayerSpec, pair: &Pair, state: Track, moment: Moment) -> Option<Moment>
    ensures { option_map (Touch pair.now.number state) result ≡ spec.touch times.now state moment pair.now }
{
    let due = due(pair.last_use, state, times.idle, times.linger);
    if moment.micros() > due.micros() {
        return Some(moment);
    }
    if is_same_state(pair.state, state) {
        return None;
    }
    Some(pair.last_use)
}
