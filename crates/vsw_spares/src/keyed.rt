//! Which rules may match the packets that have the key of a look.

ghost use Rattle.std.specs.Prelude.{◌≡◌, true};
ghost use Rattle.std.specs.List.{list_all, list_any};
ghost use Rattle.vsw_rule.specs.Field as fields;
ghost use Rattle.vsw_rule.specs.Match as matching;
ghost use Rattle.vsw_spares.specs.Between.{AreBetween};
ghost use Rattle.vsw_spares.specs.Handy as handy;
ghost use Rattle.vsw_spares.specs.Keyed as spec;
ghost use Rattle.vsw_spares.specs.Spared as spared;

use crate::between::Between;
use vsw_base::{Addr, Dir, Ip6, LayerKey};
use vsw_rule::{Action, Cond, Field, Group, Item, Rule};
use vsw_walk::Looked;

fn is_ip(field: Field) -> bool
    ensures { result ≡ fields.is_ip field }
{
    matches!(
        field,
        Field::SrcIp | Field::DstIp | Field::OuterSrcIp | Field::OuterDstIp
    )
}

fn is_in_item(field: Field, value: u64, item: &Item) -> bool
    ensures { result ≡ matching.in_item field value item.now }
{
    match item {
        Item::Range { low, high } => *low <= value && value <= *high,
        Item::Prefix(prefix) => is_ip(field) && prefix.holds(value),
        Item::Prefix6(_) => false,
    }
}

fn is_in(field: Field, value: u64, items: &[Item]) -> bool
    ensures { result ≡ spec.is_in field value items.now }
{
    items.iter().any(|item| is_in_item(field, value, item))
}

fn is_in_item6(address: Ip6, item: &Item) -> bool
    ensures { result ≡ matching.in_item6 address item.now }
{
    match item {
        Item::Range { .. } | Item::Prefix(_) => false,
        Item::Prefix6(prefix) => prefix.holds(address.number()),
    }
}

fn is_in_any6(address: Ip6, items: &[Item]) -> bool
    ensures { result ≡ list_any (matching.in_item6 address) items.now }
{
    items.iter().any(|item| is_in_item6(address, item))
}

fn is_four(field: Field, address: Addr, items: &[Item]) -> bool
    ensures { result ≡ spec.is_four field address items.now }
{
    match address {
        Addr::Four(ip) => is_in(field, u64::from(ip.number()), items),
        Addr::Absent | Addr::Six(_) => false,
    }
}

fn is_six(address: Addr, items: &[Item]) -> bool
    ensures { result ≡ spec.is_six address items.now }
{
    match address {
        Addr::Six(ip) => is_in_any6(ip, items),
        Addr::Absent | Addr::Four(_) => false,
    }
}

fn may_be(key: &LayerKey, field: Field, items: &[Item]) -> bool
    ensures { result ≡ spec.may_be key.now field items.now }
{
    match field {
        Field::DstMac | Field::SrcMac | Field::Kind => true,
        Field::SrcIp => is_four(Field::SrcIp, key.src, items),
        Field::DstIp => is_four(Field::DstIp, key.dst, items),
        Field::SrcIp6 => is_six(key.src, items),
        Field::DstIp6 => is_six(key.dst, items),
        Field::Proto => is_in(Field::Proto, u64::from(key.proto), items),
        Field::Part => is_in(Field::Part, if key.part { 1 } else { 0 }, items),
        Field::SrcPort => is_in(Field::SrcPort, u64::from(key.src_port), items),
        Field::DstPort => is_in(Field::DstPort, u64::from(key.dst_port), items),
        Field::OuterDstMac | Field::OuterSrcMac | Field::OuterSrcIp | Field::OuterDstIp => {
            key.encaps != 0
        }
        Field::Vni => key.encaps != 0 && is_in(Field::Vni, u64::from(key.vni_outer), items),
    }
}

fn may_hold(key: &LayerKey, condition: &Cond) -> bool
    ensures { result ≡ spec.may_hold key.now condition.now }
{
    may_be(key, condition.field, condition.items.as_slice())
}

fn may_all_hold(key: &LayerKey, conditions: &[Cond]) -> bool
    ensures { result ≡ list_all (spec.may_hold key.now) conditions.now }
{
    conditions.iter().all(|condition| may_hold(key, condition))
}

fn may_do(key: &LayerKey, action: &Action) -> bool
    ensures { result ≡ spec.may_do key.now action.now }
{
    match action {
        Action::Edit { decap: true, .. } => key.encaps > 0,
        Action::Edit { encap: Some(_), .. } => key.encaps < 2,
        Action::Edit { .. } | Action::Allow | Action::Drop => true,
    }
}

/// Whether a rule may match a packet with this key.
pub fn may_match(key: &LayerKey, rule: &Rule) -> bool
    ensures { result ≡ spec.may_match key.now rule.now }
{
    may_all_hold(key, rule.when.as_slice()) && may_do(key, &rule.action)
}

/// Whether a group may apply to a packet of this direction with this key.
pub fn may_apply(dir: Dir, key: &LayerKey, group: &Group) -> bool
    ensures { result ≡ spec.may_apply dir key.now group.now }
{
    group.dir == dir && may_all_hold(key, group.when.as_slice())
}

/// Whether none of the rules may.
pub fn none_may(key: &LayerKey, rules: &[Rule]) -> bool
    ensures { result ≡ handy.none_may key.now rules.now }
{
    rules.iter().all(|rule| !may_match(key, rule))
}

/// Whether the rules that come and those that go of a group leave its pick to all packets that a look stands
/// for.
pub fn picks_same(look: &Looked, group: &Group, rules: &[Rule], between: &Between<'_>) -> bool
    requires { AreBetween group.now.rules rules.now between.now.old.now between.now.new.now }
    ensures { result ≡ true → spared.picks_same look.now group.now rules.now ≡ true }
{
    !may_apply(look.dir, &look.key, group)
        || (none_may(&look.key, between.old) && none_may(&look.key, between.new))
}
