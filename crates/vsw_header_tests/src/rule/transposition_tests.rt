//! Transpositions of frames that were read by hand, and acts that make none.

use crate::rule::samples::{encap, ether, kept, plain, plain6, query, sent};
use crate::six_tests::six;
use vsw_base::{Header, Ip4, Ip6, Mac, Stack};
use vsw_transpose::{Act, BadActs, Change, Transposition};

fn twice() -> [Header; 9] {
    let [a, b, c] = encap();
    let [d, e, f, g, h, i] = sent();
    [a, b, c, d, e, f, g, h, i]
}

/// The source becomes port 40000 of 192.0.2.7, in network 5001.
fn edit() -> [Act; 6] {
    let [a, b, c] = encap();
    [
        Act::Push(a),
        Act::Push(b),
        Act::Push(c),
        Act::Ignore,
        Act::Modify(Change::Ip {
            src: Some(Ip4::of(0xc000_0207)),
            dst: None,
        }),
        Act::Modify(Change::Ports {
            src: Some(40_000),
            dst: None,
        }),
    ]
}

/// The first encapsulation goes, of one or of two.
const DECAP: [Act; 6] = [
    Act::Pop,
    Act::Pop,
    Act::Pop,
    Act::Ignore,
    Act::Ignore,
    Act::Ignore,
];

/// How many encapsulations acts keep, if they make the one frame of the other.
fn kept_by(acts: &[Act], from: &[Header], to: &[Header]) -> Option<u8> {
    let by = Transposition::of(acts).ok()?;
    let stack = Stack::of(from).ok()?;
    kept(&by, &stack, to)
}

/// Whether acts fit a frame.
fn fits(acts: &[Act], headers: &[Header]) -> Option<bool> {
    let by = Transposition::of(acts).ok()?;
    let stack = Stack::of(headers).ok()?;
    Some(by.fits(&stack))
}

#[test]
fn an_edited_query_stands_in_a_network(rt: HostRuntime) {
    let edit = edit();
    let sent = sent();
    assert!(rt; (kept_by(&edit, &plain(), &sent), fits(&edit, &sent)) == (Some(0), Some(false)));
}

#[test]
fn the_first_encapsulation_goes(rt: HostRuntime) {
    let inner = query(0xc000_0207, 40_000);
    assert!(rt; (kept_by(&DECAP, &sent(), &inner), fits(&DECAP, &inner)) == (Some(0), Some(false)));
}

/// The first of two encapsulations goes, and another comes.
fn swap() -> [Act; 12] {
    let [a, b, c] = encap();
    [
        Act::Pop,
        Act::Pop,
        Act::Pop,
        Act::Push(a),
        Act::Push(b),
        Act::Push(c),
        Act::Ignore,
        Act::Ignore,
        Act::Ignore,
        Act::Ignore,
        Act::Ignore,
        Act::Ignore,
    ]
}

/// Of the transposition that leaves a frame as it is: whether it's that of these acts, whether it
/// makes the same frame, and how many encapsulations it keeps.
fn none(acts: &[Act], headers: &[Header]) -> Option<(bool, bool, u8)> {
    let by = Transposition::of(acts).ok()?;
    let stack = Stack::of(headers).ok()?;
    let none = Transposition::none(&stack);
    Some((
        by.is_same(&none),
        none.apply(&stack).is_same(&stack),
        none.kept(),
    ))
}

#[test]
fn one_of_two_encapsulations_is_kept(rt: HostRuntime) {
    let swap = swap();
    let twice = twice();
    let told = (kept_by(&swap, &twice, &twice), none(&swap, &twice));
    assert!(rt; told == (Some(1), Some((false, true, 2))));
}

fn push() -> [Act; 12] {
    let [a, b, c] = encap();
    [
        Act::Push(a),
        Act::Push(b),
        Act::Push(c),
        Act::Ignore,
        Act::Ignore,
        Act::Ignore,
        Act::Ignore,
        Act::Ignore,
        Act::Ignore,
        Act::Ignore,
        Act::Ignore,
        Act::Ignore,
    ]
}

#[test]
fn a_third_encapsulation_does_not_fit(rt: HostRuntime) {
    assert!(rt; fits(&push(), &twice()) == Some(false));
}

/// The Ethernet destination of one header of six is written.
fn redirect(place: usize) -> [Act; 6] {
    let mut acts = [Act::Ignore; 6];
    if place < 6 {
        acts[place] = Act::Modify(Change::Ether {
            dst: Some(Mac::of(0x0200_0000_0001)),
            src: None,
        });
    }
    acts
}

/// The second header of three gets a source address of IPv6.
fn source6() -> [Act; 3] {
    let change = Change::Six {
        src: Some(Ip6::of(1)),
        dst: None,
    };
    [Act::Ignore, Act::Modify(change), Act::Ignore]
}

/// The second header of three gets a source address of IPv4.
fn source4() -> [Act; 3] {
    let change = Change::Ip {
        src: Some(Ip4::of(1)),
        dst: None,
    };
    [Act::Ignore, Act::Modify(change), Act::Ignore]
}

#[test]
fn fields_are_written_into_inner_headers_of_their_kind(rt: HostRuntime) {
    let sent = sent();
    let inner = redirect(3);
    let found = [
        fits(&inner, &sent),
        fits(&inner[..5], &sent),
        fits(&redirect(0), &sent),
        fits(&redirect(4), &sent),
    ];
    assert!(rt; found == [Some(true), Some(false), Some(false), Some(false)]);
    let found = [
        fits(&source6(), &plain6()),
        fits(&source6(), &plain()),
        fits(&source4(), &plain6()),
    ];
    assert!(rt; found == [Some(true), Some(false), Some(false)]);
}

fn is_refused(acts: &[Act]) -> bool {
    matches!(Transposition::of(acts), Err(BadActs))
}

/// At most eighteen acts are taken, and pops in threes in front of all.
fn other_pops_are_refused() -> bool {
    !is_refused(&[Act::Ignore; 18])
        && is_refused(&[Act::Ignore; 19])
        && is_refused(&[Act::Pop, Act::Pop])
        && is_refused(&[Act::Ignore, Act::Pop, Act::Pop, Act::Pop])
}

/// Pushes are taken in threes, behind pops and in front of ignores.
fn other_places_are_refused() -> bool {
    let [a, b, c] = encap();
    let acts = [
        Act::Ignore,
        Act::Push(a),
        Act::Push(b),
        Act::Push(c),
        Act::Pop,
        Act::Pop,
        Act::Pop,
    ];
    let acts = &acts[..];
    !is_refused(&acts[1..4])
        && is_refused(&acts[1..3])
        && is_refused(&acts[..4])
        && is_refused(&acts[1..])
}

fn are_refused(ether: &Header, ip: &Header, vxlan: &Header) -> bool {
    is_refused(&[Act::Push(*ether), Act::Push(*ip), Act::Push(*vxlan)])
}

/// Pushes are those of an encapsulation, in its order.
fn other_headers_are_refused() -> bool {
    let [a, b, c] = encap();
    are_refused(&b, &a, &c)
        && are_refused(&a, &b, &Header::Vxlan { vni: 0x100_0000 })
        && are_refused(&ether(1, 2, 0x86dd), &b, &c)
        && are_refused(&a, &six(17), &c)
        && is_refused(&[Act::Modify(Change::Six {
            src: None,
            dst: None,
        })])
}

#[test]
fn acts_of_another_form_are_refused(rt: HostRuntime) {
    assert!(rt; other_pops_are_refused());
    assert!(rt; other_places_are_refused());
    assert!(rt; other_headers_are_refused());
}
