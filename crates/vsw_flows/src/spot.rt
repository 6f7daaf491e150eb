//! The spots on which rows lean.

ghost use Rattle.std.specs.Prelude.{◌≡◌};
ghost use Rattle.vsw_flows.specs.Spots as spec;

use vsw_layerflow::Probe;
use vsw_walk::Looked;

/// A spot of a layer on which a row leans. The layer is told by its place among those of the policy.
#[derive(Clone, Copy, Debug, PartialEq, Eq)]
pub enum Spot {
    /// A direction and key that no pair holds.
    Missed { layer: u32, probe: Probe },
    /// The pair of this number.
    Found { layer: u32, number: u32 },
}

/// The spot of a look.
pub fn spot_of(look: &Looked) -> Spot
    ensures { result ≡ spec.spot_of look.now }
{
    let layer = look.layer;
    match look.found {
        None => Spot::Missed {
            layer,
            probe: Probe::of(look.dir, &look.key),
        },
        Some(number) => Spot::Found { layer, number },
    }
}
