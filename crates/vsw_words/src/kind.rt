//! What the three words of an act append, by their kind. docs/FORMATS.md has them as a table. Each kind has a push of its
//! own: a header that several kinds hand to one push would be copied through the stack.

ghost use Rattle.std.specs.Prelude.{◌≡◌, ◌<◌, ◌++◌, ◌∷◌, [], None, Some, length};
ghost use Rattle.vsw_transpose.specs.declared.act.Change.TheVariants as of;
ghost use Rattle.vsw_transpose.specs.Apply as does;
ghost use Rattle.vsw_words.specs.Private.Acts as spec;
ghost use Rattle.vsw_words.specs.Reading as reading;

use crate::act::{
    both, ether_by, has_first, has_second, ip_by, ip4_over, ip6, mac_over, port_over, vxlan_by,
};
use vsw_base::{Header, Headers, Ip6};
use vsw_transpose::{Change, changed};

/// Appends the header that words of a kind below 4 push.
#[inline(always)]
pub(crate) fn push_new(kind: u64, head: u64, first: u64, second: u64, out: &mut Headers)
    requires room { length out.old < 9 }
    ensures { out.new ≡ out.old ++ spec.push_at kind head first second ∷ [] }
{
    if kind == 1 {
        out.push(ether_by(head, first, second));
    } else if kind == 2 {
        out.push(ip_by(head, first, second));
    } else {
        out.push(vxlan_by(head));
    }
}

/// Appends what words of a kind above 4 make of a header that stays.
#[inline(always)]
pub(crate) fn push_old(
    kind: u64,
    head: u64,
    first: u64,
    second: u64,
    header: &Header,
    out: &mut Headers,
)
    requires room { length out.old < 9 }
    ensures { out.new ≡ out.old ++ spec.stay_at kind head first second header.now ∷ [] }
{
    if kind == 8 {
        out.push(*header);
    } else if kind == 6 {
        push_ip(head, first, second, header, out);
    } else if kind == 7 {
        push_ports(head, first, second, header, out);
    } else if kind == 5 {
        push_ether(head, first, second, header, out);
    } else {
        push_six(kind, first, second, header, out);
    }
}

#[inline(always)]
fn push_ether(head: u64, first: u64, second: u64, header: &Header, out: &mut Headers)
    requires room { length out.old < 9 }
    ensures { out.new ≡ out.old ++ does.changed (reading.ether_change head first second) header.now ∷ [] }
{
    match *header {
        Header::Ether { dst, src, kind } => out.push(Header::Ether {
            dst: mac_over(has_first(head), first, dst),
            src: mac_over(has_second(head), second, src),
            kind,
        }),
        other => out.push(other),
    }
}

#[inline(always)]
fn push_ip(head: u64, first: u64, second: u64, header: &Header, out: &mut Headers)
    requires room { length out.old < 9 }
    ensures { out.new ≡ out.old ++ does.changed (reading.ip_change head first second) header.now ∷ [] }
{
    match *header {
        Header::Ip {
            src,
            dst,
            proto,
            part,
        } => out.push(Header::Ip {
            src: ip4_over(has_first(head), first, src),
            dst: ip4_over(has_second(head), second, dst),
            proto,
            part,
        }),
        other => out.push(other),
    }
}

#[inline(always)]
fn push_ports(head: u64, first: u64, second: u64, header: &Header, out: &mut Headers)
    requires room { length out.old < 9 }
    ensures { out.new ≡ out.old ++ does.changed (reading.ports_change head first second) header.now ∷ [] }
{
    match *header {
        Header::Ports { proto, src, dst } => out.push(Header::Ports {
            proto,
            src: port_over(has_first(head), first, src),
            dst: port_over(has_second(head), second, dst),
        }),
        other => out.push(other),
    }
}

/// One address of IPv6, out of line: it wants rooms on the stack, which each packet would clear.
#[inline(never)]
fn push_six(kind: u64, first: u64, second: u64, header: &Header, out: &mut Headers)
    requires room { length out.old < 9 }
    ensures { out.new ≡ out.old ++ spec.six_at kind first second header.now ∷ [] }
{
    if kind == 9 {
        out.push(changed(&source(ip6(first, second)), header));
    } else if kind == 10 {
        out.push(changed(&destination(ip6(first, second)), header));
    } else {
        out.push(*header);
    }
}

/// Both addresses of IPv6, of which the destination is told by the first of so many acts behind; out of line, too.
#[inline(never)]
pub(crate) fn push_both(
    first: u64,
    second: u64,
    count: u64,
    behind: &[u64],
    header: &Header,
    out: &mut Headers,
)
    requires room { length out.old < 9 }
    ensures { out.new ≡ out.old ++ does.changed (of.Six (Some (reading.ip6 first second)) (reading.dst_ahead count behind.now)) header.now ∷ [] }
{
    out.push(changed(&both(first, second, count, behind), header));
}

#[inline(always)]
fn source(src: Ip6) -> Change
    ensures { result ≡ of.Six (Some src) None }
{
    Change::Six {
        src: Some(src),
        dst: None,
    }
}

#[inline(always)]
fn destination(dst: Ip6) -> Change
    ensures { result ≡ of.Six None (Some dst) }
{
    Change::Six {
        src: None,
        dst: Some(dst),
    }
}
