//! How many there may be of what commands add.

/// The most layers of a controller.
pub const MOST_LAYERS: usize = 16;

/// The most groups of a layer.
pub const MOST_GROUPS: usize = 32;

/// The most rules of a group.
pub const MOST_RULES: usize = 1024;

/// The most groups that one command puts rules into.
pub const MOST_PARTS: usize = 32;
