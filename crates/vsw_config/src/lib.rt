//! The policy file: JSON read level by level, rules, layers, groups and ports, each with its first fault and the place of it.
#![tactic(auto)]

mod action;
mod bytes;
mod condition;
mod fault;
mod field;
mod file;
mod group;
mod law;
mod layer;
mod lists;
mod object;
mod port;
mod read;
mod rule;
mod value;
mod word;

pub use bytes::json;
pub use condition::CondsReader;
pub use fault::{Fault, Kind, Step, here, under_step};
pub use file::{ConfigFault, LayerFile, PolicyFile, PortFile};
pub use group::{DirReader, GroupsReader};
pub use law::laws;
pub use layer::{AllowsReader, ControllerReader, spec_in};
pub use lists::{
    FreshNumbers, ReadItem, fresh, is_number_among, items, items_in, items_up_to, list,
};
pub use object::{ReadValue, member, member_if, object_in};
pub use read::read_policy;
pub use rule::one_rule;
pub use value::{
    Ip4Reader, Ip6Reader, MacReader, ShortReader, TruthReader, ip4, mac, number_in, short, text,
    whole,
};
pub use word::Word;
