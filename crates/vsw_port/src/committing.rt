//! A walk is carried out.

ghost use Rattle.std.specs.Prelude.{◌≡◌, ◌<◌, ◌-◌, ◌^◌, true, false, OnErr};
ghost use Rattle.vsw_port.specs.Walked.{IsWalk};
ghost use Rattle.vsw_port.specs.Cross.{cross_of, is_memory, made_by, makes, told};
ghost use Rattle.vsw_policy.specs.Sound.{Each};

use crate::changing::change_all;
use crate::judging::judge;
use crate::room::reserve_all;
use crate::stop::Stop;
use vsw_base::{Crossing, Verdict};
use vsw_policy::Policy;
use vsw_walk::{Scratch, Walked};

/// Carries out the walk of this packet, or refuses to. Ok tells whether the layers were changed.
pub fn commit(
    policy: &mut Policy,
    crossing: &Crossing,
    walked: &Walked,
    scratch: &Scratch,
) -> Result<bool, Stop>
    requires numbers { Each (λ l. l.next_pair < 2 ^ 32 - 1) policy.old.layers }
    requires walk { IsWalk policy.old.layers crossing.now walked.now scratch.now }
    ensures exact { is_memory result ≡ false → told walked.now.verdict scratch.now.stack walked.now.kept result policy.new.layers ≡ cross_of policy.old.layers crossing.now }
    ensures memory { is_memory result ≡ true → makes (made_by policy.old.layers crossing.now) ≡ true }
    ensures controllers { policy.new.controllers ≡ policy.old.controllers }
    ensures unchanged { OnErr result (policy.new.layers ≡ policy.old.layers) }
{
    let Verdict::Pass = walked.verdict else {
        return Ok(false);
    };
    if let Some(stop) = judge(policy, crossing, walked, scratch) {
        return Err(stop);
    }
    // It tells the proof that the numbers of all pairs are below the next one.
    let _ = policy.layers();
    let changes = scratch.changes();
    if reserve_all(policy, changes).is_err() {
        return Err(Stop::Memory);
    }
    change_all(policy, changes);
    Ok(!changes.is_empty())
}
