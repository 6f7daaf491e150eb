//! Whether a change of a layer's pairs shakes what was looked for.

ghost use Rattle.std.specs.Prelude.{◌≡◌, map};
ghost use Rattle.std.specs.List.{slice_get};
ghost use Rattle.vsw_policy.specs.Layer.{seen};
ghost use Rattle.vsw_layerflow.specs.Pairs as pairs;
ghost use Rattle.vsw_rows.specs.Shaken as spec;

use vsw_base::{Moment, Track};
use vsw_layerflow::pair::probes_agree;
use vsw_layerflow::{Pair, Probe, life};
use vsw_policy::{Layer, LayerSpec};
use vsw_walk::{Looked, Wanted};

/// Whether the pair of this number was found.
fn is_found(number: u32, found: Option<u32>) -> bool
    ensures { result ≡ spec.is_found number found }
{
    match found {
        None => false,
        Some(found) => number == found,
    }
}

/// Whether the pair gets another last use, or another life.
fn moves(times: &LayerSpec, state: Track, last: Moment, pair: &Pair) -> bool
    ensures { result ≡ spec.moves times.now state last pair.now }
{
    last.micros() != pair.last_use.micros()
        || life(state, times.idle, times.linger) != life(pair.state, times.idle, times.linger)
}

/// The same of the pair that a look finds in its layer.
fn moves_in(layers: &[Layer], place: u32, state: Track, last: Moment, look: &Looked) -> bool
    ensures { result ≡ spec.moves_in (slice_get (map seen layers.now) place) state last look.now }
{
    let Some(layer) = layers.get(place as usize) else {
        return false;
    };
    let Some(pair) = layer.flows.find(look.dir, &look.key) else {
        return false;
    };
    moves(&layer.spec, state, last, pair)
}

/// Whether the pair holds what was looked for.
fn holds(look: &Looked, pair: &Pair) -> bool
    ensures { result ≡ pairs.holds (pairs.probe look.now.dir look.now.key) pair.now }
{
    probes_agree();
    let probe = Probe::of(look.dir, &look.key);
    pair.front() == probe || pair.back() == probe
}

/// Whether the change, which is made in these layers, shakes the look.
pub fn shakes(layers: &[Layer], change: &Wanted, look: &Looked) -> bool
    ensures { result ≡ spec.shakes (map seen layers.now) change.now look.now }
{
    match change {
        Wanted::Make { layer, pair } => {
            *layer == look.layer && look.found.is_none() && holds(look, pair)
        }
        Wanted::Touch {
            layer,
            number,
            state,
            last,
        } => {
            *layer == look.layer
                && is_found(*number, look.found)
                && moves_in(layers, *layer, *state, *last, look)
        }
        Wanted::Leave { layer, number } => *layer == look.layer && is_found(*number, look.found),
    }
}

fn shakes_one(layers: &[Layer], change: &Wanted, looks: &[Looked]) -> bool
    ensures { result ≡ spec.shakes_one (map seen layers.now) change.now looks.now }
{
    match looks.split_first() {
        None => false,
        Some((look, rest)) => shakes(layers, change, look) || shakes_one(layers, change, rest),
    }
}

/// Whether one of the changes shakes one of the looks.
pub fn shake(layers: &[Layer], changes: &[Wanted], looks: &[Looked]) -> bool
    ensures { result ≡ spec.shake (map seen layers.now) changes.now looks.now }
{
    match changes.split_first() {
        None => false,
        Some((change, rest)) => shakes_one(layers, change, looks) || shake(layers, rest, looks),
    }
}
