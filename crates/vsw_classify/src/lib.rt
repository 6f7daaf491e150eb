//! Indexes of rules: a group's, and the groups of a layer with an index each.
#![tactic(auto)]

mod chosen;
mod copies;
mod entry;
mod field_index;
mod groups;
mod index;
mod indexed;
mod layer;
mod memory;
mod order;
mod places;
mod ranks;

pub use copies::{copy_conditions, copy_rule, copy_rules};
pub use groups::Groups;
pub use index::GroupIndex;
pub use indexed::IndexedRules;
pub use layer::{build_layer, pick_layer};
pub use places::{has_group, has_rule, has_twice, rules_in};
