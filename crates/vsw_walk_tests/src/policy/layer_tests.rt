//! The order of layers, which are refused, and their defaults.

use crate::policy::commands::Ask;
use crate::policy::trial::{Step, tried};
use crate::policy::wrong::Wrong;
use vsw_base::Dir;
use vsw_policy::Refusal;

const ORDER: [Step; 13] = [
    Step::Done(3, Ask::AddLayer(5, 10)),
    Step::Done(7, Ask::AddLayer(9, 10)),
    Step::Done(7, Ask::AddLayer(4, 20)),
    Step::Done(7, Ask::AddLayer(2, 10)),
    Step::Done(3, Ask::AddLayer(8, 5)),
    Step::Done(3, Ask::AddLayer(4, 20)),
    Step::Layers(6),
    Step::Layer(0, (3, 8)),
    Step::Layer(1, (7, 2)),
    Step::Layer(2, (7, 9)),
    Step::Layer(3, (3, 5)),
    Step::Layer(4, (7, 4)),
    Step::Layer(5, (3, 4)),
];

#[test]
fn layers_stand_by_order_then_controller_then_number(rt: HostRuntime) -> Result<(), Wrong> {
    tried(rt.alloc(), &[7, 3], &ORDER)
}

const NUMBERS: [Step; 10] = [
    Step::Done(1, Ask::AddLayer(10, 10)),
    Step::Refused(1, Ask::AddLayer(10, 99), Refusal::LayerExists),
    Step::Refused(2, Ask::AddGroup(1), Refusal::NoLayer),
    Step::Done(2, Ask::AddLayer(10, 10)),
    Step::Done(2, Ask::AddGroup(1)),
    Step::Layers(2),
    Step::Layer(0, (1, 10)),
    Step::Layer(1, (2, 10)),
    Step::Groups(0, 0),
    Step::Groups(1, 1),
];

#[test]
fn a_number_names_a_layer_of_its_controller_alone(rt: HostRuntime) -> Result<(), Wrong> {
    tried(rt.alloc(), &[1, 2], &NUMBERS)
}

const SEVENTEEN: [Step; 5] = [
    Step::AddLayers(11, 27),
    Step::Refused(1, Ask::AddLayer(27, 10), Refusal::ManyLayers),
    Step::Refused(1, Ask::AddLayer(11, 10), Refusal::LayerExists),
    Step::Done(2, Ask::AddLayer(27, 10)),
    Step::Layers(17),
];

#[test]
fn a_seventeenth_layer_and_a_layer_twice_are_refused(rt: HostRuntime) -> Result<(), Wrong> {
    tried(rt.alloc(), &[1, 2], &SEVENTEEN)
}

const ROOM: [Step; 11] = [
    Step::Refused(1, Ask::RemoveLayer(10), Refusal::NoLayer),
    Step::Done(1, Ask::AddLayer(10, 10)),
    Step::Done(2, Ask::AddLayer(10, 10)),
    Step::Done(2, Ask::AddLayer(11, 5)),
    Step::Done(2, Ask::RemoveLayer(10)),
    Step::Refused(2, Ask::RemoveLayer(10), Refusal::NoLayer),
    Step::Done(2, Ask::AddLayer(10, 1)),
    Step::Layers(3),
    Step::Layer(0, (2, 10)),
    Step::Layer(1, (2, 11)),
    Step::Layer(2, (1, 10)),
];

#[test]
fn a_layer_goes_alone_and_makes_room(rt: HostRuntime) -> Result<(), Wrong> {
    tried(rt.alloc(), &[1, 2], &ROOM)
}

const DEFAULTS: [Step; 8] = [
    Step::Refused(1, Ask::SetDefault(Dir::Out, true), Refusal::NoLayer),
    Step::Refused(1, Ask::Sweep(10, 0), Refusal::NoLayer),
    Step::Done(1, Ask::AddLayer(10, 10)),
    Step::Done(1, Ask::SetDefault(Dir::Out, true)),
    Step::Done(1, Ask::Sweep(10, 0)),
    Step::Defaults(true, true),
    Step::Done(1, Ask::SetDefault(Dir::In, false)),
    Step::Defaults(true, false),
];

#[test]
fn a_default_is_set_for_one_direction(rt: HostRuntime) -> Result<(), Wrong> {
    tried(rt.alloc(), &[1], &DEFAULTS)
}
