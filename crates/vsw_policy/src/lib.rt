//! A port's layers and their pairs, a policy of layers, and what commands do to it.
#![tactic(auto)]

mod changes;
mod command;
mod gone;
mod judge;
mod judge_many;
mod law;
mod layer;
mod limits;
mod pairs;
mod parts;
mod places;
mod policy;
mod refusal;

pub use changes::change;
pub use command::{Command, Part};
pub use law::laws;
pub use layer::{Layer, LayerSpec};
pub use policy::Policy;
pub use refusal::{Refusal, Reply};
pub use vsw_classify::{
    Groups, copy_conditions, copy_rule, copy_rules, has_group, has_rule, has_twice, rules_in,
};
pub use vsw_layerflow::HashSeed;
