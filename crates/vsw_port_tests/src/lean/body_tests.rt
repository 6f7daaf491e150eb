//! Rows of passes and drops, and bodies read back from their words.

ghost use Rattle.std.specs.Prelude.{◌≡◌, true};
ghost use Rattle.vsw_base.specs.declared.fate.Verdict.TheVariants.{Pass};
ghost use Rattle.vsw_transpose.specs.Fits.{fits};
ghost use Rattle.vsw_words.specs.Row.{IsBare};

use crate::lean::samples::{QUERY, QUERY6, encap, query, query6};
use vsw_base::{Dir, Header, Ip4, Ip6, Moment, Stack, Ufid, Verdict};
use vsw_transpose::{Act, Change, Transposition};
use vsw_words::{Body, body_of, body_to, row_of, words_in_use};

/// What edits source address and port of a query and puts it in network 5001.
fn edit() -> [Act; 6] {
    let [ether, ip, vxlan] = encap(5001);
    [
        Act::Push(ether),
        Act::Push(ip),
        Act::Push(vxlan),
        Act::Ignore,
        Act::Modify(Change::Ip {
            src: Some(Ip4::of(0xc000_0207)),
            dst: None,
        }),
        Act::Modify(Change::Ports {
            src: Some(40_000),
            dst: None,
        }),
    ]
}

/// The words from 16 on of a pass that is edited so until 240 seconds after the epoch, typed by hand from the table.
fn edit_words() -> [u64; 57] {
    let mut words = [0; 57];
    words[1] = 240_000_000;
    words[2] = 6;
    words[3] = 0x0800_0031;
    words[4] = 0x0200_0000_0a02;
    words[5] = 0x0200_0000_0a01;
    words[6] = 0x11_0032;
    words[7] = 0xac10_0001;
    words[8] = 0xac10_0002;
    words[9] = 0x1389_0003;
    words[12] = 8;
    words[15] = 0x16;
    words[16] = 0xc000_0207;
    words[18] = 0x17;
    words[19] = 40_000;
    words
}

/// The words from 16 on of a drop until 240 seconds after the epoch: its verdict, and who drops.
fn drop_words(verdict: u64, dropper: u64) -> [u64; 57] {
    let mut words = [0; 57];
    words[0] = verdict;
    words[1] = 240_000_000;
    words[3] = dropper;
    words
}

/// By rule 5 of group 1 of layer 10 of controller 1.
fn by_rule() -> [u64; 57] {
    drop_words(1, 0x0005_0001_000a_0001)
}

/// By the default for outbound and inbound packets of layer 10 of controller 1.
fn by_out() -> [u64; 57] {
    drop_words(2, 0xa_0001)
}

fn by_in() -> [u64; 57] {
    drop_words(3, 0xa_0001)
}

/// A change of the addresses over IPv6.
fn moved(src: Option<Ip6>, dst: Option<Ip6>) -> [Act; 3] {
    let change = Change::Six { src, dst };
    [Act::Ignore, Act::Modify(change), Act::Ignore]
}

/// The source becomes fd00::77.
fn hide() -> [Act; 3] {
    moved(
        Some(Ip6::of(0xfd00_0000_0000_0000_0000_0000_0000_0077)),
        None,
    )
}

/// The destination becomes 2001:db8::7.
fn send_on() -> [Act; 3] {
    moved(
        None,
        Some(Ip6::of(0x2001_0db8_0000_0000_0000_0000_0000_0007)),
    )
}

fn move_both() -> [Act; 3] {
    moved(
        Some(Ip6::of(0xfd00_0000_0000_0000_0000_0000_0000_0077)),
        Some(Ip6::of(0x2001_0db8_0000_0000_0000_0000_0000_0007)),
    )
}

/// The destination before the source, and once more behind an act between.
fn send_twice() -> [Act; 5] {
    let [ignored, on, _] = send_on();
    let [_, from, _] = hide();
    let [between, again, _] = send_on();
    [ignored, on, from, between, again]
}

/// The words from 16 on of a pass with so many acts until 240 seconds after the epoch, the first of which is none.
fn pass_words(count: u64) -> [u64; 57] {
    let mut words = [0; 57];
    words[1] = 240_000_000;
    words[2] = count;
    words[3] = 8;
    words
}

/// The same for those changes, typed by hand from the table: the source is of kind 9, and the destination of kind 10.
fn hide_words() -> [u64; 57] {
    let mut words = pass_words(3);
    words[6] = 25;
    words[7] = 0xfd00_0000_0000_0000;
    words[8] = 0x77;
    words[9] = 8;
    words
}

fn on_words() -> [u64; 57] {
    let mut words = pass_words(3);
    words[6] = 42;
    words[7] = 0x2001_0db8_0000_0000;
    words[8] = 7;
    words[9] = 8;
    words
}

fn both_words() -> [u64; 57] {
    let mut words = pass_words(4);
    words[6] = 25;
    words[7] = 0xfd00_0000_0000_0000;
    words[8] = 0x77;
    words[9] = 42;
    words[10] = 0x2001_0db8_0000_0000;
    words[11] = 7;
    words[12] = 8;
    words
}

/// A destination, a source, an act of nothing, and a destination again.
fn apart_words() -> [u64; 57] {
    let mut words = pass_words(5);
    words[6] = 42;
    words[7] = 0x2001_0db8_0000_0000;
    words[8] = 7;
    words[9] = 25;
    words[10] = 0xfd00_0000_0000_0000;
    words[11] = 0x77;
    words[12] = 8;
    words[15] = 42;
    words[16] = 0x2001_0db8_0000_0000;
    words[17] = 7;
    words
}

/// Whether the acts may be done to packets of this stack, where they pass.
fn may_be_done(verdict: &Verdict, by: &Transposition, stack: &Stack) -> bool
    ensures { result ≡ true → verdict.now ≡ Pass → fits by.now stack.now ≡ true }
{
    match verdict {
        Verdict::Pass => by.fits(stack),
        Verdict::Rule { .. } | Verdict::Default { .. } => true,
    }
}

/// An outbound packet's headers and the words of its key.
#[derive(Drop)]
struct Keyed {
    headers: [Header; 3],
    key: [u64; 16],
}

fn plain() -> Keyed {
    Keyed {
        headers: query(),
        key: QUERY,
    }
}

fn plain6() -> Keyed {
    Keyed {
        headers: query6(),
        key: QUERY6,
    }
}

/// Whether the row of a packet has these words and says that so many are in use.
fn has_row(of: &Keyed, verdict: &Verdict, acts: &[Act], body: &[u64; 57], used: usize) -> bool
    requires { IsBare verdict.now acts.now }
{
    match (Stack::of(&of.headers), Transposition::of(acts)) {
        (Ok(stack), Ok(by)) => {
            if !may_be_done(verdict, &by, &stack) {
                return false;
            }
            let id = Ufid {
                dir: Dir::Out,
                stack,
            };
            let mut out = [9; 73];
            row_of(&id, verdict, &by, Moment::of(240_000_000), &mut out);
            &out[..16] == of.key.as_slice()
                && &out[16..] == body.as_slice()
                && words_in_use(&front_of(&out)) == used
        }
        _ => false,
    }
}

/// The seven words of a row that a look loads first.
fn front_of(row: &[u64; 73]) -> [u64; 7] {
    [row[0], row[2], row[3], row[8], row[16], row[17], row[18]]
}

/// Whether the words are read as this body, in a room and without one.
fn reads(words: &[u64; 57], verdict: &Verdict, acts: &[Act]) -> bool {
    let mut body = Body::room();
    body_to(words, &mut body)
        && is_body(&body, verdict, acts)
        && match body_of(words) {
            Some(body) => is_body(&body, verdict, acts),
            None => false,
        }
}

fn is_body(body: &Body, verdict: &Verdict, acts: &[Act]) -> bool {
    body.verdict == *verdict && body.by.acts() == acts && body.until.micros() == 240_000_000
}

/// Whether the words are of a body still, if one of them is another.
fn is_body_with(words: &[u64; 57], place: usize, word: u64) -> bool {
    let mut changed = *words;
    if place < 57 {
        changed[place] = word;
    }
    body_of(&changed).is_some()
}

const RULE: Verdict = Verdict::Rule {
    controller: 1,
    layer: 10,
    group: 1,
    rule: 5,
};

const OUT: Verdict = Verdict::Default {
    controller: 1,
    layer: 10,
    dir: Dir::Out,
};

const IN: Verdict = Verdict::Default {
    controller: 1,
    layer: 10,
    dir: Dir::In,
};

#[test]
fn rows_are_those_of_the_table(rt: HostRuntime) {
    let found = [
        has_row(&plain(), &Verdict::Pass, &edit(), &edit_words(), 25),
        has_row(&plain(), &RULE, &[], &by_rule(), 8),
        has_row(&plain(), &OUT, &[], &by_out(), 8),
        has_row(&plain(), &IN, &[], &by_in(), 8),
    ];
    assert!(&rt; found == [true; 4]);
    let over_ipv6 = [
        has_row(&plain6(), &Verdict::Pass, &hide(), &hide_words(), 43),
        has_row(&plain6(), &Verdict::Pass, &move_both(), &both_words(), 43),
        has_row(&plain6(), &Verdict::Pass, &send_on(), &on_words(), 43),
        has_row(&plain6(), &OUT, &[], &by_out(), 43),
    ];
    assert!(&rt; over_ipv6 == [true; 4]);
}

#[test]
fn bodies_are_read_back(rt: HostRuntime) {
    let found = [
        reads(&edit_words(), &Verdict::Pass, &edit()),
        reads(&by_rule(), &RULE, &[]),
        reads(&by_out(), &OUT, &[]),
        reads(&by_in(), &IN, &[]),
    ];
    assert!(&rt; found == [true; 4]);
    let over_ipv6 = [
        reads(&hide_words(), &Verdict::Pass, &hide()),
        reads(&both_words(), &Verdict::Pass, &move_both()),
        reads(&on_words(), &Verdict::Pass, &send_on()),
        reads(&apart_words(), &Verdict::Pass, &send_twice()),
    ];
    assert!(&rt; over_ipv6 == [true; 4]);
}

/// Words of the edit that make it no body.
const WRONG: [(usize, u64); 19] = [
    (0, 1), // a drop with acts
    (0, 4), // no verdict
    (2, 5), // an act too few
    (2, 7), // an act too many
    (2, 19), // more than a transposition has
    (3, 8), // IPv4 is pushed without Ethernet
    (3, 0x0806_0031), // another type than IPv4
    (3, 0x0800_0011), // a push without its second field
    (4, 0x1_0000_0000_0000), // an Ethernet address of 49 bits
    (6, 0x11_0072), // a bit of no meaning
    (7, 0x1_0000_0000), // an IPv4 address of 33 bits
    (9, 0x100_0000_0003), // a network of 25 bits
    (10, 1), // VXLAN has no first field
    (12, 9), // no kind
    (13, 1), // an act without fields has one
    (17, 1), // a field that isn't there
    (19, 65_536), // a port of 17 bits
    (21, 1), // words of no act
    (56, 1), // the last word
];

/// Words of the change of both addresses over IPv6 that make it no body.
const WRONG6: [(usize, u64); 9] = [
    (2, 3), // an act too few
    (2, 5), // an act too many
    (6, 9), // a source that isn't there
    (6, 0x29), // a destination of kind 9
    (6, 0x39), // both of kind 9
    (9, 10), // a destination that isn't there
    (9, 0x1a), // a source of kind 10
    (9, 0x3a), // both of kind 10
    (9, 43), // no kind
];

/// The place of the first of these words with which a pass is a body, if there is one.
fn first_body(words: &[u64; 57], wrong: &[(usize, u64)]) -> Option<usize> {
    for place in 0..wrong.len() {
        if is_body_with(words, wrong[place].0, wrong[place].1) {
            return Some(place);
        }
    }
    None
}

#[test]
fn other_words_are_no_body(rt: HostRuntime) {
    assert!(&rt; first_body(&edit_words(), &WRONG) == None);
    assert!(&rt; first_body(&both_words(), &WRONG6) == None);
}

#[test]
fn other_words_are_no_drop(rt: HostRuntime) {
    let found = [
        is_body_with(&by_rule(), 2, 1),
        is_body_with(&by_rule(), 4, 1),
        is_body_with(&by_rule(), 56, 1),
        is_body_with(&by_out(), 3, 0x1_000a_0001),
        is_body_with(&by_in(), 3, 0x1_000a_0001),
        is_body_with(&by_rule(), 0, 4),
        is_body_with(&by_rule(), 0, 0),
    ];
    assert!(&rt; found == [false; 7]);
    assert!(rt;
        is_body_with(&by_rule(), 0, 1) && is_body_with(&edit_words(), 1, 0xffff_ffff_ffff_ffff)
    );
}
