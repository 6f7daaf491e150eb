//! Rows that a crossing shakes fall.

ghost use Rattle.std.specs.Prelude.{◌≡◌, List, map, false};
ghost use Rattle.vsw_policy.specs.Layer.{LayerSeen, seen};
ghost use Rattle.vsw_rows.specs.Shaken as spec;
ghost use Rattle.vsw_walk.specs.declared.scratch.Looked.{Looked};
ghost use Rattle.vsw_flows.specs.Shaking.{IsShaken, IsShakenBy, NoneLeft, NoneLeftBy, Past, Tested, moves_none};
ghost use Rattle.vsw_flows.specs.Standing.{Stand, Thins};

use crate::falling::fall;
use crate::leaning::Leaning;
use crate::spot::Spot;
use crate::story::PortStory;
use vsw_policy::Layer;
use vsw_rows::shakes;
use vsw_table::{Lookup, Writer};
use vsw_walk::{Looked, Wanted};

/// Whether the changes make pairs and take some away, and move none: no pair that stays gets another state or last use.
pub fn moves_none(changes: &[Wanted]) -> bool
    ensures { result ≡ moves_none changes.now }
{
    let Some((change, rest)) = changes.split_first() else {
        return true;
    };
    match change {
        Wanted::Make { .. } => moves_none(rest),
        Wanted::Touch { .. } => false,
        Wanted::Leave { .. } => moves_none(rest),
    }
}

/// Whether the change shakes one of the looks.
fn shakes_one(layers: &[Layer], change: &Wanted, looks: &[Looked]) -> bool
    ensures { result ≡ spec.shakes_one (map seen layers.now) change.now looks.now }
{
    match looks.split_first() {
        None => false,
        Some((look, rest)) => shakes(layers, change, look) || shakes_one(layers, change, rest),
    }
}

/// The row with a mark falls, if the change shakes it.
#[inline(always)]
fn test(
    lookup: &Lookup<PortStory>,
    writer: &mut Writer<PortStory>,
    leaning: &mut Leaning,
    layers: &[Layer],
    change: &Wanted,
    mark: u32,
)
    requires table { writer.old.table ≡ lookup.now.0 }
    ensures thins { Thins (IsShakenBy (map seen layers.now) change.now leaning.old.kept) writer.old writer.new leaning.old leaning.new }
    ensures tested { Tested (map seen layers.now) change.now leaning.old.kept mark writer.new }
{
    if mark == 0 {
        return;
    }
    if shakes_one(layers, change, leaning.looks_of(mark - 1)) {
        fall(lookup, writer, leaning, mark);
    }
}

/// The rows at a spot fall that the change shakes.
fn test_at(
    lookup: &Lookup<PortStory>,
    writer: &mut Writer<PortStory>,
    leaning: &mut Leaning,
    layers: &[Layer],
    change: &Wanted,
    spot: Spot,
)
    requires table { writer.old.table ≡ lookup.now.0 }
    ensures thins { Thins (IsShakenBy (map seen layers.now) change.now leaning.old.kept) writer.old writer.new leaning.old leaning.new }
    ensures past { (ls : List LayerSeen) → Stand ls writer.old leaning.old → Past (map seen layers.now) change.now leaning.old.kept spot writer.new }
{
    let leaners = leaning.at(&spot);
    test(lookup, writer, leaning, layers, change, leaners.first);
    test(lookup, writer, leaning, layers, change, leaners.second);
    test(lookup, writer, leaning, layers, change, leaners.third);
    test(lookup, writer, leaning, layers, change, leaners.fourth);
}

/// The rows that a change shakes fall.
fn shake_one(
    lookup: &Lookup<PortStory>,
    writer: &mut Writer<PortStory>,
    leaning: &mut Leaning,
    layers: &[Layer],
    change: &Wanted,
)
    requires table { writer.old.table ≡ lookup.now.0 }
    ensures thins { Thins (IsShakenBy (map seen layers.now) change.now leaning.old.kept) writer.old writer.new leaning.old leaning.new }
    ensures none { (ls : List LayerSeen) → Stand ls writer.old leaning.old → NoneLeftBy (map seen layers.now) change.now leaning.old.kept writer.new }
{
    match change {
        Wanted::Make { layer, pair } => {
            let (layer, front, back) = (*layer, pair.front(), pair.back());
            let front = Spot::Missed {
                layer,
                probe: front,
            };
            let back = Spot::Missed { layer, probe: back };
            test_at(lookup, writer, leaning, layers, change, front);
            test_at(lookup, writer, leaning, layers, change, back);
        }
        Wanted::Touch { layer, number, .. } => {
            let spot = Spot::Found {
                layer: *layer,
                number: *number,
            };
            test_at(lookup, writer, leaning, layers, change, spot);
        }
        Wanted::Leave { layer, number } => {
            let spot = Spot::Found {
                layer: *layer,
                number: *number,
            };
            test_at(lookup, writer, leaning, layers, change, spot);
        }
    }
}

/// The rows that one of the changes shakes fall, and no others. The layers are those before the changes.
pub fn shake(
    lookup: &Lookup<PortStory>,
    writer: &mut Writer<PortStory>,
    leaning: &mut Leaning,
    layers: &[Layer],
    changes: &[Wanted],
)
    requires table { writer.old.table ≡ lookup.now.0 }
    ensures thins { Thins (IsShaken (map seen layers.now) changes.now leaning.old.kept) writer.old writer.new leaning.old leaning.new }
    ensures none { (ls : List LayerSeen) → Stand ls writer.old leaning.old → NoneLeft (map seen layers.now) changes.now leaning.old.kept writer.new }
{
    let Some((change, rest)) = changes.split_first() else {
        return;
    };
    shake_one(lookup, writer, leaning, layers, change);
    shake(lookup, writer, leaning, layers, rest);
}
