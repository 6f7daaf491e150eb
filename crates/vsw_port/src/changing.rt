//! The changes of the layers.

ghost use Rattle.std.specs.Prelude.{◌≡◌, ◌∷◌, List, false, true};
ghost use Rattle.vsw_port.specs.Can.{AllRoom, AreApart, CanAll, CanDo, HasRoom};
ghost use Rattle.vsw_port.specs.Cross.{all_done, done};
ghost use Rattle.vsw_port.specs.WalkWanted.{Wanted};

use vsw_policy::Policy;
use vsw_walk::Wanted;

fn change(policy: &mut Policy, wanted: &Wanted)
    requires can { CanDo wanted.now policy.old.layers }
    requires room { HasRoom wanted.now policy.old }
    ensures done { policy.new.layers ≡ done wanted.now policy.old.layers }
    ensures controllers { policy.new.controllers ≡ policy.old.controllers }
    ensures rooms { (ws : List Wanted) → AreApart (wanted.now ∷ ws) → AllRoom ws policy.old → AllRoom ws policy.new }
{
    match wanted {
        Wanted::Make { layer, pair } => policy.add_pair(*layer as usize, *pair),
        Wanted::Touch {
            layer,
            number,
            state,
            last,
        } => policy.touch_pair(*layer as usize, *number, *state, *last),
        Wanted::Leave { layer, number } => policy.remove_pair(*layer as usize, *number),
    }
}

/// Makes two changes at once, where the second makes a pair in the layer that one leaves by the first. Whether it does.
fn change_both(policy: &mut Policy, first: &Wanted, second: &Wanted) -> bool
    requires can { CanDo first.now policy.old.layers × CanDo second.now (done first.now policy.old.layers) }
    requires room { HasRoom second.now policy.old }
    ensures done { result ≡ true → policy.new.layers ≡ done second.now (done first.now policy.old.layers) }
    ensures same { result ≡ false → policy.new ≡ policy.old }
    ensures controllers { policy.new.controllers ≡ policy.old.controllers }
    ensures rooms { (ws : List Wanted) → AreApart (second.now ∷ ws) → AllRoom ws policy.old → AllRoom ws policy.new }
{
    match (first, second) {
        (Wanted::Leave { layer, number }, Wanted::Make { layer: at, pair }) => {
            if layer != at {
                return false;
            }
            policy.replace_pair(*layer as usize, *number, pair);
            true
        }
        _ => false,
    }
}

/// Makes all changes, in their order. It takes no memory.
pub fn change_all(policy: &mut Policy, changes: &[Wanted])
    requires can { CanAll changes.now policy.old.layers }
    requires room { AllRoom changes.now policy.old }
    requires apart { AreApart changes.now }
    ensures done { policy.new.layers ≡ all_done changes.now policy.old.layers }
    ensures controllers { policy.new.controllers ≡ policy.old.controllers }
{
    let [wanted, rest @ ..] = changes else {
        return;
    };
    if let [second, others @ ..] = rest {
        if change_both(policy, wanted, second) {
            change_all(policy, others);
            return;
        }
    }
    change(policy, wanted);
    change_all(policy, rest);
}
