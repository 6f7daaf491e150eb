//! Rows that a command doesn't spare fall.

ghost use Rattle.std.specs.Prelude.{◌≡◌, ◌<◌, ◌∷◌, [], ℕ, Some, map, true, false};
ghost use Rattle.std.specs.List.{list_all, slice_get};
ghost use Rattle.vsw_policy.specs.Groups.{rules_in};
ghost use Rattle.vsw_policy.specs.Layer.{LayerSeen, seen};
ghost use Rattle.vsw_policy.specs.Layers as layers_of;
ghost use Rattle.vsw_policy.specs.declared.command.Command.TheVariants.{PutRules};
ghost use Rattle.vsw_spares.specs.Spared as spec;
ghost use Rattle.vsw_flows.specs.Flows.{IsCurrent};
ghost use Rattle.vsw_flows.specs.Gists.{gist_of, passes};
ghost use Rattle.vsw_flows.specs.Leant.{kept_at};
ghost use Rattle.vsw_flows.specs.Obeying as obeying;
ghost use Rattle.vsw_flows.specs.Obeying.{AllLeft, AllSparedBy, IsDiffering, IsNaming};
ghost use Rattle.vsw_flows.specs.Standing.{Lessens, Stand};

use crate::falling::{fall, fall_all, rows_of};
use crate::gists::{is_unnamed, passes_all};
use crate::leaning::Leaning;
use crate::story::PortStory;
use vsw_base::Items;
use vsw_policy::{Command, Layer, Part, rules_in};
use vsw_rule::Rule;
use vsw_spares::{
    Between, add_rule_leaves, default_leaves, differing, put_rules_leaves, remove_group_leaves,
    remove_rule_leaves, sweep_leaves,
};
use vsw_table::{Lookup, Writer};
use vsw_walk::Looked;

/// Whether the controller's layer of a number is this one.
fn is_named(controller: u16, number: u16, layer: &Layer) -> bool
    ensures { result ≡ layers_of.is_layer controller number (seen layer.now) }
{
    controller == layer.controller && number == layer.spec.layer
}

/// Whether a command names the layer.
fn names(controller: u16, command: &Command, layer: &Layer) -> bool
    ensures { result ≡ spec.names controller command.now (seen layer.now) }
{
    match command {
        Command::AddLayer { spec } => is_named(controller, spec.layer, layer),
        Command::RemoveLayer { layer: number } => is_named(controller, *number, layer),
        Command::AddGroup { layer: number, .. } => is_named(controller, *number, layer),
        Command::RemoveGroup { layer: number, .. } => is_named(controller, *number, layer),
        Command::PutRules { layer: number, .. } => is_named(controller, *number, layer),
        Command::PutMany { .. } => false,
        Command::AddRule { layer: number, .. } => is_named(controller, *number, layer),
        Command::RemoveRule { layer: number, .. } => is_named(controller, *number, layer),
        Command::SetDefault { layer: number, .. } => is_named(controller, *number, layer),
        Command::Sweep { layer: number, .. } => is_named(controller, *number, layer),
    }
}

/// Whether a command on the layer is known to leave what the look is told. Other rules are asked by `put_leaves`.
fn leaves(layer: &Layer, look: &Looked, command: &Command) -> bool
    ensures { result ≡ true → spec.leaves command.now (seen layer.now) look.now ≡ true }
{
    match command {
        Command::AddGroup { .. } => true,
        Command::RemoveGroup {
            layer: number,
            group,
        } => remove_group_leaves(layer, look, *number, *group),
        Command::AddRule {
            layer: number,
            group,
            rule,
        } => add_rule_leaves(layer, look, *number, *group, rule),
        Command::RemoveRule {
            layer: number,
            group,
            number: rule,
        } => remove_rule_leaves(layer, look, *number, *group, *rule),
        Command::SetDefault {
            layer: number,
            dir,
            allow,
        } => default_leaves(layer, look, *number, *dir, *allow),
        Command::Sweep { layer: number, now } => sweep_leaves(layer, look, *number, *now),
        _ => false,
    }
}

/// Whether a command names the layer at a place.
fn names_at(layers: &[Layer], controller: u16, command: &Command, place: u32) -> bool
    ensures { result ≡ obeying.named_in controller command.now (slice_get (map seen layers.now) place) }
{
    match layers.get(place as usize) {
        None => false,
        Some(layer) => names(controller, command, layer),
    }
}

/// Which layers a command names.
#[tactic(auto, using(crate::proofs::Obeyed::named_none, crate::proofs::Obeyed::named_all))]
fn named_of(layers: &[Layer], controller: u16, command: &Command) -> [bool; 128]
    ensures { IsNaming (map seen layers.now) controller command.now result }
{
    let mut named = [false; 128];
    for place in 0..128u32 {
        named[place as usize] = names_at(layers, controller, command, place);
    }
    named
}

/// Whether a command is known to leave what the look is told. Most looks are in layers that the command doesn't name.
fn leaves_look(
    layers: &[Layer],
    named: &[bool; 128],
    controller: u16,
    command: &Command,
    look: &Looked,
) -> bool
    requires naming { IsNaming (map seen layers.now) controller command.now named.now }
    ensures { result ≡ true → spec.leaves_in controller command.now (slice_get (map seen layers.now) look.now.layer) look.now ≡ true }
{
    if is_unnamed(named, look.layer) {
        return true;
    }
    match layers.get(look.layer as usize) {
        None => true,
        Some(layer) => leaves(layer, look, command),
    }
}

/// Whether a command is known to leave what these looks are told.
fn leaves_all(
    layers: &[Layer],
    named: &[bool; 128],
    controller: u16,
    command: &Command,
    looks: &[Looked],
) -> bool
    requires naming { IsNaming (map seen layers.now) controller command.now named.now }
    ensures { result ≡ true → obeying.leaves_all (map seen layers.now) controller command.now looks.now ≡ true }
{
    let Some((look, rest)) = looks.split_first() else {
        return true;
    };
    if leaves_look(layers, named, controller, command, look) {
        return leaves_all(layers, named, controller, command, rest);
    }
    false
}

/// Whether one more row may be asked, which takes one of so many.
fn may_ask(asks: &mut u32) -> bool {
    if *asks == 0 {
        return false;
    }
    *asks -= 1;
    true
}

/// Whether the command is known to leave what the looks of a row are told by what stands near of them.
fn passes_row(leaning: &Leaning, named: &[bool; 128], command: &Command, row: u32) -> bool
    ensures { result ≡ true → list_all (passes named.now command.now) (map gist_of (kept_at leaning.now.kept row)) ≡ true }
{
    match leaning.gists_of(row) {
        Some(gists) => passes_all(named, command, gists),
        None => false,
    }
}

/// A row falls, unless the command is known to leave what its looks are told: by what stands near of them, or, where it may be asked,
/// by the looks. Nothing is kept of it then, so that the next command passes over it. Its stamp is read only then: that would cost more
/// than all else.
fn spare_row(
    lookup: &Lookup<PortStory>,
    writer: &mut Writer<PortStory>,
    leaning: &mut Leaning,
    asks: &mut u32,
    layers: &[Layer],
    named: &[bool; 128],
    controller: u16,
    command: &Command,
    row: u32,
)
    requires table { (writer.old.table ≡ lookup.now.0) × (row < lookup.now.2) }
    requires few { row < 4294967295 }
    requires naming { IsNaming (map seen layers.now) controller command.now named.now }
    ensures lessens { Lessens writer.old writer.new leaning.old leaning.new }
    ensures left { Stand (map seen layers.now) writer.old leaning.old → IsCurrent writer.new row → obeying.leaves_all (map seen layers.now) controller command.now (kept_at leaning.old.kept row) ≡ true }
{
    if leaning.looks_of(row).is_empty() {
        return;
    }
    if passes_row(leaning, named, command, row) {
        return;
    }
    if may_ask(asks) {
        if leaves_all(layers, named, controller, command, leaning.looks_of(row)) {
            return;
        }
    }
    fall(lookup, writer, leaning, row + 1);
    leaning.forget(row);
}

/// All rows fall but those whose looks the command is known to leave what they are told.
#[tactic(auto, using(crate::proofs::Obeyed::tried_none, crate::proofs::Obeyed::tried_all))]
fn spare_rows(
    lookup: &Lookup<PortStory>,
    writer: &mut Writer<PortStory>,
    leaning: &mut Leaning,
    asks: &mut u32,
    layers: &[Layer],
    controller: u16,
    command: &Command,
)
    requires table { writer.old.table ≡ lookup.now.0 }
    ensures lessens { Lessens writer.old writer.new leaning.old leaning.new }
    ensures left { Stand (map seen layers.now) writer.old leaning.old → AllLeft (map seen layers.now) controller command.now leaning.old.kept writer.new }
{
    let named = named_of(layers, controller, command);
    for row in 0..rows_of(lookup, writer) {
        spare_row(
            lookup, writer, leaning, asks, layers, &named, controller, command, row,
        );
    }
}

/// Other rules for a group of a layer, and where they differ from those that it has.
#[derive(Clone, Copy)]
pub struct Put<'a> {
    pub layer: u16,
    pub group: u16,
    pub rules: &'a Items<Rule>,
    pub place: u32,
    pub between: Between<'a>,
}

/// The place of a controller's layer, or one behind all.
fn place_of(layers: &[Layer], controller: u16, number: u16) -> u32 {
    for place in 0..128u32 {
        if let Some(layer) = layers.get(place as usize) {
            if is_named(controller, number, layer) {
                return place;
            }
        }
    }
    128
}

/// The rules of a group in the layer at a place.
fn rules_at(layers: &[Layer], place: u32, group: u16) -> &[Rule]
    ensures { (l : LayerSeen) → slice_get (map seen layers.now) place ≡ Some l → result.now ≡ rules_in l.groups group }
{
    match layers.get(place as usize) {
        None => &[],
        Some(layer) => rules_in(layer.groups.as_slice(), group),
    }
}

/// Other rules for a group of the controller's layer of a number.
fn put_of<'a>(
    layers: &'a [Layer],
    controller: u16,
    layer: u16,
    group: u16,
    rules: &'a Items<Rule>,
) -> Put<'a>
    ensures put { (result.layer ≡ layer) × (result.group ≡ group) × (result.rules.now ≡ rules.now) }
    ensures differs { IsDiffering (map seen layers.now) result.place group rules.now result.between.old.now result.between.new.now }
{
    let place = place_of(layers, controller, layer);
    let between = differing(rules_at(layers, place, group), rules.as_slice());
    Put {
        layer,
        group,
        rules,
        place,
        between,
    }
}

/// Whether other rules for a group are known to leave what the look is told.
fn put_leaves_look(layers: &[Layer], controller: u16, put: &Put<'_>, look: &Looked) -> bool
    requires differs { IsDiffering (map seen layers.now) put.now.place put.now.group put.now.rules.now put.now.between.old.now put.now.between.new.now }
    ensures { result ≡ true → spec.leaves_in controller (PutRules put.now.layer put.now.group put.now.rules.now) (slice_get (map seen layers.now) look.now.layer) look.now ≡ true }
{
    let Some(layer) = layers.get(look.layer as usize) else {
        return true;
    };
    if is_named(controller, put.layer, layer) {
        if look.layer == put.place {
            return put_rules_leaves(layer, look, put.layer, put.group, put.rules, &put.between);
        }
        return false;
    }
    true
}

/// Whether they leave what these looks are told.
fn put_leaves_all(layers: &[Layer], controller: u16, put: &Put<'_>, looks: &[Looked]) -> bool
    requires differs { IsDiffering (map seen layers.now) put.now.place put.now.group put.now.rules.now put.now.between.old.now put.now.between.new.now }
    ensures { result ≡ true → obeying.leaves_all (map seen layers.now) controller (PutRules put.now.layer put.now.group put.now.rules.now) looks.now ≡ true }
{
    let Some((look, rest)) = looks.split_first() else {
        return true;
    };
    if put_leaves_look(layers, controller, put, look) {
        return put_leaves_all(layers, controller, put, rest);
    }
    false
}

/// A row falls, unless it may be asked, and other rules are known to leave what its looks are told (`spare_row`).
fn spare_row_put(
    lookup: &Lookup<PortStory>,
    writer: &mut Writer<PortStory>,
    leaning: &mut Leaning,
    asks: &mut u32,
    layers: &[Layer],
    controller: u16,
    put: &Put<'_>,
    row: u32,
)
    requires table { (writer.old.table ≡ lookup.now.0) × (row < lookup.now.2) }
    requires few { row < 4294967295 }
    requires differs { IsDiffering (map seen layers.now) put.now.place put.now.group put.now.rules.now put.now.between.old.now put.now.between.new.now }
    ensures lessens { Lessens writer.old writer.new leaning.old leaning.new }
    ensures left { Stand (map seen layers.now) writer.old leaning.old → IsCurrent writer.new row → obeying.leaves_all (map seen layers.now) controller (PutRules put.now.layer put.now.group put.now.rules.now) (kept_at leaning.old.kept row) ≡ true }
{
    if leaning.looks_of(row).is_empty() {
        return;
    }
    if may_ask(asks) {
        if put_leaves_all(layers, controller, put, leaning.looks_of(row)) {
            return;
        }
    }
    fall(lookup, writer, leaning, row + 1);
    leaning.forget(row);
}

/// All rows fall but those that may be asked, and whose looks other rules are known to leave what they are told.
#[tactic(auto, using(crate::proofs::Obeyed::tried_none, crate::proofs::Obeyed::tried_all))]
fn spare_rows_put(
    lookup: &Lookup<PortStory>,
    writer: &mut Writer<PortStory>,
    leaning: &mut Leaning,
    asks: &mut u32,
    layers: &[Layer],
    controller: u16,
    put: &Put<'_>,
)
    requires table { writer.old.table ≡ lookup.now.0 }
    requires differs { IsDiffering (map seen layers.now) put.now.place put.now.group put.now.rules.now put.now.between.old.now put.now.between.new.now }
    ensures lessens { Lessens writer.old writer.new leaning.old leaning.new }
    ensures left { Stand (map seen layers.now) writer.old leaning.old → AllLeft (map seen layers.now) controller (PutRules put.now.layer put.now.group put.now.rules.now) leaning.old.kept writer.new }
{
    for row in 0..rows_of(lookup, writer) {
        spare_row_put(lookup, writer, leaning, asks, layers, controller, put, row);
    }
}

/// The rows fall that other rules for one group don't spare.
fn obey_put(
    lookup: &Lookup<PortStory>,
    writer: &mut Writer<PortStory>,
    leaning: &mut Leaning,
    asks: &mut u32,
    layers: &[Layer],
    controller: u16,
    layer: u16,
    group: u16,
    rules: &Items<Rule>,
)
    requires table { writer.old.table ≡ lookup.now.0 }
    ensures lessens { Lessens writer.old writer.new leaning.old leaning.new }
    ensures left { Stand (map seen layers.now) writer.old leaning.old → AllLeft (map seen layers.now) controller (PutRules layer group rules.now) leaning.old.kept writer.new }
{
    let put = put_of(layers, controller, layer, group, rules);
    spare_rows_put(lookup, writer, leaning, asks, layers, controller, &put);
}

/// The rows fall that other rules for several groups don't spare, each asked at the layers before them all.
#[tactic(auto, using(crate::proofs::Obeyed::parts_none))]
fn obey_parts(
    lookup: &Lookup<PortStory>,
    writer: &mut Writer<PortStory>,
    leaning: &mut Leaning,
    asks: &mut u32,
    layers: &[Layer],
    controller: u16,
    parts: &[Part],
)
    requires table { writer.old.table ≡ lookup.now.0 }
    ensures lessens { Lessens writer.old writer.new leaning.old leaning.new }
    ensures left { Stand (map seen layers.now) writer.old leaning.old → AllSparedBy (map seen layers.now) controller (map spec.as_put parts.now) leaning.old.kept writer.new }
{
    let Some((part, rest)) = parts.split_first() else {
        return;
    };
    obey_put(
        lookup,
        writer,
        leaning,
        asks,
        layers,
        controller,
        part.layer,
        part.group,
        &part.rules,
    );
    obey_parts(lookup, writer, leaning, asks, layers, controller, rest);
}

/// Whether the command changes one layer, and is no put.
fn is_alone(command: &Command) -> bool
    ensures { result ≡ true → (spec.singles command.now ≡ command.now ∷ []) × (spec.is_within command.now ≡ true) }
{
    match command {
        Command::AddLayer { .. } => false,
        Command::RemoveLayer { .. } => false,
        Command::AddGroup { .. } => true,
        Command::RemoveGroup { .. } => true,
        Command::PutRules { .. } => false,
        Command::PutMany { .. } => false,
        Command::AddRule { .. } => true,
        Command::RemoveRule { .. } => true,
        Command::SetDefault { .. } => true,
        Command::Sweep { .. } => true,
    }
}

/// The rows fall that a command of the controller isn't known to spare, by what stands near of their looks or by asking them. No more are
/// asked than `asks` tells, which falls by as many; where it is 0 the others fall unasked. The layers are those before the command is obeyed.
#[tactic(auto, using(crate::proofs::Obeyed::all_lessens))]
pub fn obey(
    lookup: &Lookup<PortStory>,
    writer: &mut Writer<PortStory>,
    leaning: &mut Leaning,
    asks: &mut u32,
    layers: &[Layer],
    controller: u16,
    command: &Command,
)
    requires table { writer.old.table ≡ lookup.now.0 }
    ensures lessens { Lessens writer.old writer.new leaning.old leaning.new }
    ensures spared { Stand (map seen layers.now) writer.old leaning.old → (place : ℕ) → IsCurrent writer.new place → spec.spares (map seen layers.now) controller command.now (kept_at leaning.old.kept place) ≡ true }
{
    if is_alone(command) {
        spare_rows(lookup, writer, leaning, asks, layers, controller, command);
        return;
    }
    match command {
        Command::PutRules {
            layer,
            group,
            rules,
        } => obey_put(
            lookup, writer, leaning, asks, layers, controller, *layer, *group, rules,
        ),
        Command::PutMany { parts } => {
            obey_parts(
                lookup,
                writer,
                leaning,
                asks,
                layers,
                controller,
                parts.as_slice(),
            );
        }
        _ => fall_all(lookup, writer, leaning, layers.len() + 1),
    }
}
