//! Acts done from their words: words, headers and what comes out were typed by hand from the table in docs/FORMATS.md.

ghost use Rattle.std.specs.Prelude.{◌≡◌, ◌<◌, ◌^◌};
ghost use Rattle.vsw_base.specs.declared.fate.Verdict.TheVariants.{Pass};
ghost use Rattle.vsw_words.specs.Reading.{IsTold};

use crate::doing::{Doing, doing_of};
use crate::pass::do_words;
use crate::reading::body_to;
use crate::row::{Body, row_of};
use crate::verdict::{until_in, verdict_in};
use vsw_base::{Dir, Header, Ip4, Ip6, Mac, Stack, Ufid, Verdict};

fn ether(dst: u64, src: u64, kind: u16) -> Header
    requires dst { dst < 2 ^ 48 }
    requires src { src < 2 ^ 48 }
{
    Header::Ether {
        dst: Mac::of(dst),
        src: Mac::of(src),
        kind,
    }
}

fn ip(src: u32, dst: u32) -> Header {
    Header::Ip {
        src: Ip4::of(src),
        dst: Ip4::of(dst),
        proto: 17,
        part: false,
    }
}

fn ports(src: u16, dst: u16) -> Header {
    Header::Ports {
        proto: 17,
        src,
        dst,
    }
}

/// Of IPv6, from fd00:: with one number to fd00:: with another.
fn six(src: u64, dst: u64) -> Header {
    Header::Six {
        src: Ip6::of(0xfd00_0000_0000_0000_0000_0000_0000_0000 + u128::from(src)),
        dst: Ip6::of(0xfd00_0000_0000_0000_0000_0000_0000_0000 + u128::from(dst)),
        proto: 17,
    }
}

/// A query of IPv4.
fn query() -> [Header; 3] {
    [
        ether(0x99, 0x01, 0x0800),
        ip(0x0a00_0005, 0x0a00_0009),
        ports(1234, 53),
    ]
}

/// A query of IPv6.
fn query6() -> [Header; 3] {
    [ether(0x99, 0x01, 0x86dd), six(5, 9), ports(1234, 53)]
}

/// A frame of another kind.
fn arp() -> [Header; 1] {
    [ether(0xffff_ffff_ffff, 0x01, 0x0806)]
}

/// Headers behind an encapsulation in network 5001, and behind one in network 7 around that.
fn inside(headers: [Header; 3]) -> [Header; 6] {
    let [a, b, c] = headers;
    [
        ether(0xa02, 0xa01, 0x0800),
        ip(0xac10_0001, 0xac10_0002),
        Header::Vxlan { vni: 5001 },
        a,
        b,
        c,
    ]
}

fn inside_both(headers: [Header; 3]) -> [Header; 9] {
    let [a, b, c, d, e, f] = inside(headers);
    [
        ether(0xb02, 0xb01, 0x0800),
        ip(0xac10_0101, 0xac10_0102),
        Header::Vxlan { vni: 7 },
        a,
        b,
        c,
        d,
        e,
        f,
    ]
}

/// The acts that put these two in front.
const PUSH_ETHER: [u64; 3] = [0x0800_0031, 0xa02, 0xa01];

const PUSH_IP: [u64; 3] = [0x11_0032, 0xac10_0001, 0xac10_0002];

const PUSH_VXLAN: [u64; 3] = [0x1389_0003, 0, 0];

const OUTER_ETHER: [u64; 3] = [0x0800_0031, 0xb02, 0xb01];

const OUTER_IP: [u64; 3] = [0x11_0032, 0xac10_0101, 0xac10_0102];

const OUTER_VXLAN: [u64; 3] = [0x0007_0003, 0, 0];

const POP: [u64; 3] = [4, 0, 0];

const LEFT: [u64; 3] = [8, 0, 0];

const SRC6: [u64; 3] = [25, 0xfd00_0000_0000_0000, 0x77];

const DST6: [u64; 3] = [42, 0xfd00_0000_0000_0000, 0x88];

/// The words of a pass with these acts until 240 seconds after the epoch.
fn pass_words(acts: &[[u64; 3]]) -> [u64; 57] {
    let mut words = [0; 57];
    words[1] = 240_000_000;
    words[2] = acts.len() as u64;
    let mut place = 3;
    for act in acts {
        if place <= 54 {
            words[place] = act[0];
            words[place + 1] = act[1];
            words[place + 2] = act[2];
            place += 3;
        }
    }
    words
}

/// What acts come to: encapsulations popped and pushed, and whether anything is changed.
fn doing(pops: u8, pushes: u8, edits: bool) -> Doing {
    Doing {
        pops,
        pushes,
        edits,
    }
}

/// Whether the acts of these words make the other headers of the first ones, and come to this.
fn makes(acts: &[[u64; 3]], from: &[Header], to: &[Header], doing: Doing) -> bool {
    let words = pass_words(acts);
    let mut body = Body::room();
    match Stack::of(from) {
        Err(_) => false,
        Ok(stack) => {
            let id = Ufid {
                dir: Dir::Out,
                stack,
            };
            body_to(&words, &mut body) && does(&words, &body, &id, to, doing)
        }
    }
}

fn does(words: &[u64; 57], body: &Body, id: &Ufid, to: &[Header], doing: Doing) -> bool
    requires told { IsTold words.now body.now.verdict body.now.by body.now.until }
{
    match body.verdict {
        Verdict::Pass => does_pass(words, body, id, to, doing),
        Verdict::Rule { .. } | Verdict::Default { .. } => false,
    }
}

fn does_pass(words: &[u64; 57], body: &Body, id: &Ufid, to: &[Header], doing: Doing) -> bool
    requires told { IsTold words.now body.now.verdict body.now.by body.now.until }
    requires pass { body.now.verdict ≡ Pass }
{
    if !body.by.fits(&id.stack) {
        return false;
    }
    // It tells the proof that the numbers of the acts lie in their ranges.
    let mut row = [0; 73];
    row_of(id, &body.verdict, &body.by, body.until, &mut row);
    let mut edited = Stack::room();
    do_words(words, &id.stack, &mut edited);
    edited.headers() == to && doing_of(words) == doing
}

#[test]
fn encapsulations_are_pushed(rt: HostRuntime) {
    let once = makes(
        &[PUSH_ETHER, PUSH_IP, PUSH_VXLAN, LEFT, LEFT, LEFT],
        &query(),
        &inside(query()),
        doing(0, 1, true),
    );
    let twice = makes(
        &[
            OUTER_ETHER,
            OUTER_IP,
            OUTER_VXLAN,
            PUSH_ETHER,
            PUSH_IP,
            PUSH_VXLAN,
            LEFT,
            LEFT,
            LEFT,
        ],
        &query6(),
        &inside_both(query6()),
        doing(0, 2, true),
    );
    assert!(&rt; once && twice);
}

#[test]
fn encapsulations_are_popped(rt: HostRuntime) {
    let once = makes(
        &[POP, POP, POP, LEFT, LEFT, LEFT],
        &inside(query6()),
        &query6(),
        doing(1, 0, true),
    );
    let twice = makes(
        &[POP, POP, POP, POP, POP, POP, LEFT, LEFT, LEFT],
        &inside_both(query()),
        &query(),
        doing(2, 0, true),
    );
    let one_of_two = makes(
        &[POP, POP, POP, LEFT, LEFT, LEFT, LEFT, LEFT, LEFT],
        &inside_both(query()),
        &inside(query()),
        doing(1, 0, true),
    );
    assert!(&rt; once && twice && one_of_two);
}

/// An encapsulation goes, another one comes, and inner fields are written.
#[test]
fn encapsulations_are_exchanged(rt: HostRuntime) {
    let [a, b, c, _, _, _, _, _, _] = inside_both(query());
    let edited = [
        a,
        b,
        c,
        ether(0x99, 0x02, 0x0800),
        ip(0x0a00_0005, 0xc000_0207),
        ports(40_000, 5353),
    ];
    let done = makes(
        &[
            POP,
            POP,
            POP,
            OUTER_ETHER,
            OUTER_IP,
            OUTER_VXLAN,
            [0x25, 0, 0x02],
            [0x26, 0, 0xc000_0207],
            [0x37, 40_000, 5353],
        ],
        &inside(query()),
        &edited,
        doing(1, 1, true),
    );
    assert!(&rt; done);
}

#[test]
fn fields_are_written(rt: HostRuntime) {
    let first = makes(
        &[[0x15, 0x98, 0], [0x16, 0xc000_0207, 0], [0x17, 40_000, 0]],
        &query(),
        &[
            ether(0x98, 0x01, 0x0800),
            ip(0xc000_0207, 0x0a00_0009),
            ports(40_000, 53),
        ],
        doing(0, 0, true),
    );
    let second = makes(
        &[[0x35, 0x98, 0x02], [0x36, 1, 2], [0x27, 0, 5353]],
        &query(),
        &[ether(0x98, 0x02, 0x0800), ip(1, 2), ports(1234, 5353)],
        doing(0, 0, true),
    );
    let alone = makes(
        &[[0x15, 0x98, 0]],
        &arp(),
        &[ether(0x98, 0x01, 0x0806)],
        doing(0, 0, true),
    );
    assert!(&rt; first && second && alone);
}

/// Two acts of one change are done at one header.
#[test]
fn addresses_of_ipv6_are_written(rt: HostRuntime) {
    let [ether, _, ports] = query6();
    let source = makes(
        &[LEFT, SRC6, LEFT],
        &query6(),
        &[ether, six(0x77, 9), ports],
        doing(0, 0, true),
    );
    let destination = makes(
        &[LEFT, DST6, LEFT],
        &query6(),
        &[ether, six(5, 0x88), ports],
        doing(0, 0, true),
    );
    let both = makes(
        &[LEFT, SRC6, DST6, [0x27, 0, 5353]],
        &query6(),
        &[
            ether,
            six(0x77, 0x88),
            Header::Ports {
                proto: 17,
                src: 1234,
                dst: 5353,
            },
        ],
        doing(0, 0, true),
    );
    assert!(&rt; source && destination && both);
}

/// Behind what is popped and pushed, too.
#[test]
fn both_addresses_are_written_inside(rt: HostRuntime) {
    let done = makes(
        &[
            POP, POP, POP, PUSH_ETHER, PUSH_IP, PUSH_VXLAN, LEFT, SRC6, DST6, LEFT,
        ],
        &inside(query6()),
        &inside([ether(0x99, 0x01, 0x86dd), six(0x77, 0x88), ports(1234, 53)]),
        doing(1, 1, true),
    );
    assert!(&rt; done);
}

#[test]
fn nothing_is_changed(rt: HostRuntime) {
    let plain = makes(&[LEFT, LEFT, LEFT], &query(), &query(), doing(0, 0, false));
    let short = makes(&[LEFT], &arp(), &arp(), doing(0, 0, false));
    let twice = makes(
        &[LEFT, LEFT, LEFT, LEFT, LEFT, LEFT, LEFT, LEFT, LEFT],
        &inside_both(query6()),
        &inside_both(query6()),
        doing(0, 0, false),
    );
    assert!(&rt; plain && short && twice);
}

/// The words of a drop until 240 seconds after the epoch.
fn drop_words(verdict: u64, dropper: u64) -> [u64; 57] {
    let mut words = [0; 57];
    words[0] = verdict;
    words[1] = 240_000_000;
    words[3] = dropper;
    words
}

/// By a rule, and by a default for each direction.
#[test]
fn verdicts_are_told(rt: HostRuntime) {
    let told = [
        verdict_in(&pass_words(&[LEFT])),
        verdict_in(&drop_words(1, 0x0005_0001_000a_0001)),
        verdict_in(&drop_words(2, 0xa_0001)),
        verdict_in(&drop_words(3, 0xa_0001)),
    ];
    let wanted = [
        Verdict::Pass,
        Verdict::Rule {
            controller: 1,
            layer: 10,
            group: 1,
            rule: 5,
        },
        Verdict::Default {
            controller: 1,
            layer: 10,
            dir: Dir::Out,
        },
        Verdict::Default {
            controller: 1,
            layer: 10,
            dir: Dir::In,
        },
    ];
    assert!(&rt; told == wanted);
    assert!(&rt; until_in(&drop_words(1, 0)).micros() == 240_000_000);
}
