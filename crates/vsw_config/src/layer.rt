//! Layers of a port.

ghost use Rattle.std.specs.Prelude.{◌≡◌, ◌==◌, ◌&&◌};
ghost use Rattle.std.specs.List.{list_any};
ghost use Rattle.serde_json.specs.View.{view};
ghost use Rattle.vsw_config.specs.Fault.{Says};
ghost use Rattle.vsw_config.specs.Layer.{listed_number, room_for, fresh_layer, allows_for, allows_of, spec_in, layer_of, layers_of};
ghost use Rattle.vsw_config.specs.Layer as spec;

use crate::file::LayerFile;
use crate::{
    Fault, GroupsReader, Kind, ReadItem, ReadValue, ShortReader, Word, fresh, here,
    is_number_among, items, list, member, number_in, object_in, short, text,
};
use serde_json::Value;
use std::alloc::Global;
use vsw_base::Items;
use vsw_policy::LayerSpec;

/// The most layers of one controller on a port.
const MOST_LAYERS: usize = 16;

/// The most pairs of a layer.
const MOST_PAIRS: u32 = 65_536;

/// Seconds of a day, the longest time that a pair may be idle or linger.
const MOST_SECONDS: u32 = 86_400;

const LAYER_WORDS: [Word; 9] = [
    Word::Controller,
    Word::Layer,
    Word::Order,
    Word::DefaultOut,
    Word::DefaultIn,
    Word::Pairs,
    Word::Idle,
    Word::Linger,
    Word::Groups,
];

/// Reads the number of one of these controllers.
#[derive(Drop)]
pub struct ControllerReader<'a> {
    pub known: &'a [u16],
}

impl<'a> ReadValue<u16> for ControllerReader<'a> {
    ghost value_of = { λ reader. listed_number reader.known.now };

    #[tactic(auto, unfolding(crate::specs::Layer::listed_number))]
    fn value(&self, alloc: Global, value: &Value) -> Result<u16, Fault> {
        let number = short(alloc, value)?;
        if is_number_among(number, self.known) {
            Ok(number)
        } else {
            Err(here(alloc, Kind::Unknown))
        }
    }
}

fn count_by(controller: u16, layers: &[LayerFile]) -> usize
    ensures { result ≡ spec.count_by controller layers.now }
{
    let mut count = 0;
    for layer in layers {
        if layer.controller == controller {
            count += 1;
        }
    }
    count
}

#[tactic(auto, unfolding(crate::specs::Layer::room_for))]
fn has_room(alloc: Global, controller: u16, done: &[LayerFile]) -> Result<(), Fault>
    ensures { result ≡ room_for controller done.now }
{
    if count_by(controller, done) < MOST_LAYERS {
        Ok(())
    } else {
        Err(here(alloc, Kind::Many))
    }
}

fn is_taken(controller: u16, number: u16, layers: &[LayerFile]) -> bool
    ensures { result ≡ list_any (λ l. (l.controller == controller) && (l.spec.layer == number)) layers.now }
{
    layers.iter().any(|layer| layer.controller == controller && layer.spec.layer == number)
}

/// Reads a number that none of these layers has of this controller.
#[derive(Drop)]
struct NumberReader<'a> {
    controller: u16,
    done: &'a [LayerFile],
}

impl<'a> ReadValue<u16> for NumberReader<'a> {
    ghost value_of = { λ reader. fresh_layer reader.controller reader.done.now };

    #[tactic(auto, unfolding(crate::specs::Layer::fresh_layer))]
    fn value(&self, alloc: Global, value: &Value) -> Result<u16, Fault> {
        let number = short(alloc, value)?;
        fresh(alloc, is_taken(self.controller, number, self.done), number)
    }
}

fn allows_named(alloc: Global, name: &str) -> Result<bool, Fault>
    ensures { result ≡ allows_for name.now }
{
    match name {
        "allow" => Ok(true),
        "drop" => Ok(false),
        _ => Err(here(alloc, Kind::Shape)),
    }
}

/// Reads whether packets pass that no rule is chosen for.
pub struct AllowsReader;

impl ReadValue<bool> for AllowsReader {
    ghost value_of = { λ reader. allows_of };

    fn value(&self, alloc: Global, value: &Value) -> Result<bool, Fault> {
        let name = text(alloc, value)?;
        allows_named(alloc, name)
    }
}

/// What stands between a layer's number and its groups.
#[tactic(auto, unfolding(crate::specs::Layer::spec_in))]
pub fn spec_in(alloc: Global, layer: u16, object: &Value) -> Result<LayerSpec, Fault>
    ensures { Says result (spec_in layer (view object.now)) }
{
    let order = member(alloc, object, Word::Order, &ShortReader)?;
    let allow_out = member(alloc, object, Word::DefaultOut, &AllowsReader)?;
    let allow_in = member(alloc, object, Word::DefaultIn, &AllowsReader)?;
    let pairs = number_in(alloc, 0, MOST_PAIRS, object, Word::Pairs)?;
    let idle = number_in(alloc, 1, MOST_SECONDS, object, Word::Idle)?;
    let linger = number_in(alloc, 1, MOST_SECONDS, object, Word::Linger)?;
    Ok(LayerSpec {
        layer,
        order,
        allow_out,
        allow_in,
        pairs,
        idle,
        linger,
    })
}

/// Reads a layer of one of these controllers.
#[derive(Drop)]
struct LayerReader<'a> {
    version: u8,
    known: &'a [u16],
}

impl<'a> ReadItem<LayerFile> for LayerReader<'a> {
    ghost item_of = { λ reader. layer_of reader.version reader.known.now };

    #[tactic(auto, unfolding(crate::specs::Layer::layer_of))]
    fn item(&self, alloc: Global, done: &[LayerFile], value: &Value) -> Result<LayerFile, Fault> {
        let (version, known) = (self.version, self.known);
        let object = object_in(alloc, &LAYER_WORDS, value)?;
        let controller = member(alloc, object, Word::Controller, &ControllerReader { known })?;
        has_room(alloc, controller, done)?;
        let number = member(
            alloc,
            object,
            Word::Layer,
            &NumberReader { controller, done },
        )?;
        let spec = spec_in(alloc, number, object)?;
        let groups = member(alloc, object, Word::Groups, &GroupsReader { version })?;
        Ok(LayerFile {
            controller,
            spec,
            groups,
        })
    }
}

/// Reads the layers of a port, each of one of these controllers.
#[derive(Drop)]
pub(crate) struct LayersReader<'a> {
    pub(crate) version: u8,
    pub(crate) known: &'a [u16],
}

impl<'a> ReadValue<Items<LayerFile>> for LayersReader<'a> {
    ghost value_of = { λ reader. layers_of reader.version reader.known.now };

    #[tactic(auto, unfolding(crate::specs::Layer::layers_of))]
    fn value(&self, alloc: Global, value: &Value) -> Result<Items<LayerFile>, Fault> {
        let (version, known) = (self.version, self.known);
        let values = items(alloc, value)?;
        let layers = list(alloc, &LayerReader { version, known }, values)?;
        Ok(layers)
    }
}
