//! Room for the pairs that a packet makes.

ghost use Rattle.std.specs.Prelude.{◌≡◌, ◌≤◌, ℕ, true, length, OnOk, OnErr};
ghost use Rattle.vsw_port.specs.Can.{AllRoom, HasRoom, IsWithin};
ghost use Rattle.vsw_port.specs.Cross.{is_make, makes};
ghost use Rattle.vsw_policy.specs.Layers.{room_at};
ghost use Rattle.vsw_policy.specs.Sound.{Each};

use vsw_base::NoMemory;
use vsw_policy::Policy;
use vsw_walk::Wanted;

fn reserve(policy: &mut Policy, change: &Wanted) -> Result<(), NoMemory>
    requires { IsWithin (length policy.old.layers) change.now }
    ensures room { OnOk result (HasRoom change.now policy.new) }
    ensures rooms { (k : ℕ) → room_at policy.old k ≤ room_at policy.new k }
    ensures layers { policy.new.layers ≡ policy.old.layers }
    ensures controllers { policy.new.controllers ≡ policy.old.controllers }
    ensures makes { OnErr result (is_make change.now ≡ true) }
{
    match change {
        Wanted::Make { layer, .. } => policy.reserve_pair(*layer as usize),
        Wanted::Touch { .. } | Wanted::Leave { .. } => Ok(()),
    }
}

/// Takes room for all pairs that are made.
pub fn reserve_all(policy: &mut Policy, changes: &[Wanted]) -> Result<(), NoMemory>
    requires { Each (IsWithin (length policy.old.layers)) changes.now }
    ensures room { OnOk result (AllRoom changes.now policy.new) }
    ensures rooms { (k : ℕ) → room_at policy.old k ≤ room_at policy.new k }
    ensures layers { policy.new.layers ≡ policy.old.layers }
    ensures controllers { policy.new.controllers ≡ policy.old.controllers }
    ensures makes { OnErr result (makes changes.now ≡ true) }
{
    let [change, rest @ ..] = changes else {
        return Ok(());
    };
    if let Err(error) = reserve(policy, change) {
        return Err(error);
    }
    reserve_all(policy, rest)
}
