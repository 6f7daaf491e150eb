//! What a policy file gives.

use crate::{Kind, Step};
use vsw_base::{Items, Mac};
use vsw_policy::{HashSeed, LayerSpec};
use vsw_rule::Group;

/// A layer of a port.
#[derive(PartialEq, Eq, Drop)]
pub struct LayerFile {
    /// The controller that it belongs to, one of the file's.
    pub controller: u16,
    pub spec: LayerSpec,
    pub groups: Items<Group>,
}

/// A port.
#[derive(PartialEq, Eq, Drop)]
pub struct PortFile {
    pub port: u16,
    pub mac: Mac,
    /// Rows of its table of flows, 8 to 16,384.
    pub rows: u32,
    pub layers: Items<LayerFile>,
}

/// A policy file.
#[derive(PartialEq, Eq, Drop)]
pub struct PolicyFile {
    /// 1 or 2. In version 2, the file may name IPv6 addresses, and a command beside it several groups.
    pub version: u8,
    pub controllers: Items<u16>,
    pub ports: Items<PortFile>,
    /// What the ports hash from that strangers pick. It is drawn from the bytes of the file.
    pub seed: HashSeed,
}

/// Why a policy file is refused.
#[derive(PartialEq, Eq, Drop)]
pub enum ConfigFault {
    /// It is no such file; this is the first place, in the order of reading. The innermost step of the
    /// path stands first.
    Bad { kind: Kind, path: Items<Step> },
    /// It has more than 4,194,304 bytes.
    PolicyLimit,
    /// It has more than 16 ports.
    PortsLimit,
    /// It has more than 8 controllers.
    ControllersLimit,
    /// There was no memory for the policy or the path.
    Memory,
}
