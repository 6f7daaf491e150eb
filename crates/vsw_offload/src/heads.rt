//! Heads of rows whose packets pass. A head stands in the slot of its key or in one of the two behind, so most packets touch nothing else of their row.

ghost use Rattle.std.specs.Prelude.{◌≡◌, ◌≢◌, ◌≤◌, IfOk, IfSome, List, None, OnOk, ℕ, get_or, true};
ghost use Rattle.vsw_base.specs.declared.fate.Verdict.{Verdict};
ghost use Rattle.vsw_base.specs.declared.fate.Verdict.TheVariants.{Pass};
ghost use Rattle.vsw_base.specs.declared.header.Header.{Header};
ghost use Rattle.vsw_offload.specs.Private.Heading.{AreHeads, IsHead, IsHeadFor, PassesBy, TakesHead, TakesRow, bare_of, head_key, no_head};
ghost use Rattle.vsw_offload.specs.Private.Making.{ArePlaces, EditsNone, IsPlaceOf};
ghost use Rattle.vsw_offload.specs.Rows.{IsRow};
ghost use Rattle.vsw_policy.specs.Sound.{Each};
ghost use Rattle.vsw_transpose.specs.declared.act.Act.{Act};
ghost use Rattle.vsw_words.specs.Doing.{AreOf};

use crate::making::{is_own, place_of};
use std::alloc::Global;
use vsw_base::{Items, Moment, NoMemory, Verdict};
use vsw_words::{slot_of, until_in, verdict_in};

/// What is known of a row whose packets pass. The other words of its key are 0.
#[derive(Clone, Copy)]
pub(crate) struct Head {
    /// The key's first word. Where it is 0 there is no row.
    pub first: u64,
    /// The addresses of the Ethernet header.
    pub dst: u64,
    pub src: u64,
    /// Those of the IPv4 header, if there is one.
    pub pair: u64,
    /// The row's until.
    pub until: u64,
    /// Where the headers stand that the row makes. Without them it edits nothing.
    pub place: Option<u32>,
}

const NO_HEAD: Head = Head {
    first: 0,
    dst: 0,
    src: 0,
    pair: 0,
    until: 0,
    place: None,
};

/// Whether those words of a key are 0 that a head doesn't have.
#[inline(always)]
fn is_bare(key: &[u64; 16]) -> bool
    ensures { result ≡ true → key.now ≡ bare_of key.now }
{
    let encapsulated = key[1] | key[4] | key[5] | key[6] | key[7] | key[9] | key[10];
    let last = key[11] | key[12] | key[13] | key[14] | key[15];
    encapsulated | last == 0
}

/// Whether a head is of a key, and its row's until isn't below a moment.
#[inline(always)]
fn is_for(head: &Head, key: &[u64; 16], moment: Moment) -> bool
    ensures { result ≡ true → IsHeadFor head.now key.now moment }
{
    head.first == key[0]
        && head.dst == key[2]
        && head.src == key[3]
        && head.pair == key[8]
        && head.first != 0
        && moment.micros() <= head.until
}

/// The head in a slot, if it is of a key, and its row's until isn't below a moment.
#[inline(always)]
fn head_in<'a>(heads: &'a [Head], slot: usize, key: &[u64; 16], moment: Moment) -> Option<&'a Head>
    ensures { IfSome result (λ h. (h.now ≡ get_or heads.now slot no_head) × IsHeadFor h.now key.now moment) }
{
    match heads.get(slot) {
        None => None,
        Some(head) => {
            if is_for(head, key, moment) {
                Some(head)
            } else {
                None
            }
        }
    }
}

/// How many slots there are, if they are some.
#[inline(always)]
fn slots_of(heads: &[Head]) -> Option<u32>
    ensures { IfSome result (λ slots. 8 ≤ slots) }
{
    if heads.len() < 8 || heads.len() > 1 << 30 {
        return None;
    }
    Some(heads.len() as u32)
}

/// The head of a key at a moment, if it stands in one of three slots.
#[inline(always)]
pub(crate) fn head_for<'a>(heads: &'a [Head], key: &[u64; 16], moment: Moment) -> Option<&'a Head>
    ensures { (rows : List (List ℕ)) (stacks : List (List Header)) → AreHeads rows stacks heads.now → IfSome result (λ h. PassesBy rows stacks key.now moment h.now.place) }
{
    let slots = slots_of(heads)?;
    if !is_bare(key) {
        return None;
    }
    let slot = slot_of(key, slots) as usize;
    if let Some(head) = head_in(heads, slot, key, moment) {
        return Some(head);
    }
    if let Some(head) = head_in(heads, slot + 1, key, moment) {
        return Some(head);
    }
    head_in(heads, slot + 2, key, moment)
}

/// Whether the packets of a row with this body pass, and as they came if no headers are made of them.
fn is_known(body: &[u64; 57], place: Option<u32>) -> bool
    requires { (v : Verdict) × (by : List Act) × (until : ℕ) × AreOf body.now v by until }
    ensures pass { result ≡ true → (v : Verdict) (by : List Act) (until : ℕ) → AreOf body.now v by until → v ≡ Pass }
    ensures none { result ≡ true → place ≡ None → EditsNone body.now }
{
    match verdict_in(body) {
        Verdict::Pass => match place {
            None => is_own(body),
            Some(_) => true,
        },
        Verdict::Rule { .. } => false,
        Verdict::Default { .. } => false,
    }
}

/// A head of a key.
fn head_with(key: &[u64; 16], until: Moment, place: Option<u32>) -> Head
    ensures key { head_key result ≡ bare_of key.now }
    ensures until { result.until ≡ until }
    ensures place { result.place ≡ place }
{
    Head {
        first: key[0],
        dst: key[2],
        src: key[3],
        pair: key[8],
        until: until.micros(),
        place,
    }
}

/// The head of a row, if it has one. The headers that it makes stand at the place.
fn head_of(words: &[u64; 73], place: Option<u32>) -> Option<Head>
    requires { IsRow words.now }
    ensures { (stacks : List (List Header)) → IsPlaceOf words.now stacks place → IfSome result (λ head. IsHead words.now stacks head) }
{
    let Some(key) = words.first_chunk::<16>() else {
        return None;
    };
    let Some(body) = words.last_chunk::<57>() else {
        return None;
    };
    if !is_bare(key) {
        return None;
    }
    if !is_known(body, place) {
        return None;
    }
    Some(head_with(key, until_in(body), place))
}

/// Puts a head into a slot, if that is free.
fn put(heads: &mut Vec<Head>, slot: usize, head: Head) -> bool
    ensures { TakesHead head heads.old.items heads.new.items }
{
    if slot >= heads.len() {
        return false;
    }
    if heads[slot].first != 0 {
        return false;
    }
    heads[slot] = head;
    true
}

/// Slots for so many heads: with three for each nearly all find theirs or one behind it.
fn slots_for(rows: usize) -> u32
    ensures { 8 ≤ result }
{
    if rows >= 1 << 27 {
        return 1 << 29;
    }
    (3 * rows + 8) as u32
}

/// Makes the slots free, if they aren't made.
fn make_slots(heads: &mut Vec<Head>, slots: u32) -> Result<(), NoMemory>
    ensures { OnOk result ((rows : List (List ℕ)) (stacks : List (List Header)) → AreHeads rows stacks heads.old.items → AreHeads rows stacks heads.new.items) }
{
    if heads.len() > 0 {
        return Ok(());
    }
    match heads.resize(slots as usize, NO_HEAD) {
        Ok(()) => Ok(()),
        Err(_) => Err(NoMemory),
    }
}

/// Puts a head into the slot of its key, or into one of the two behind.
fn put_near(heads: &mut Vec<Head>, slots: u32, key: &[u64; 16], head: Head)
    requires slots { 8 ≤ slots }
    ensures { TakesHead head heads.old.items heads.new.items }
{
    let slot = slot_of(key, slots) as usize;
    if put(heads, slot, head) {
        return;
    }
    if put(heads, slot + 1, head) {
        return;
    }
    let _ = put(heads, slot + 2, head);
}

/// Puts the head of a row, if it has one.
fn add(
    heads: &mut Vec<Head>,
    slots: u32,
    words: &[u64; 73],
    place: Option<u32>,
) -> Result<(), NoMemory>
    requires slots { 8 ≤ slots }
    requires row { IsRow words.now }
    ensures { OnOk result (TakesRow words.now place heads.old.items heads.new.items) }
{
    let Some(key) = words.first_chunk::<16>() else {
        return Ok(());
    };
    let Some(head) = head_of(words, place) else {
        return Ok(());
    };
    make_slots(heads, slots)?;
    put_near(heads, slots, key, head);
    Ok(())
}

/// The heads of a port's rows, of which these are the places of their headers.
pub(crate) fn heads_of_port(
    alloc: Global,
    rows: &[[u64; 73]],
    places: &[Option<u32>],
) -> Result<Items<Head>, NoMemory>
    requires { Each IsRow rows.now }
    ensures { IfOk result (λ heads. (stacks : List (List Header)) → ArePlaces rows.now places.now stacks → AreHeads rows.now stacks heads) }
{
    let slots = slots_for(rows.len());
    let mut heads = Vec::new(alloc);
    let mut at: usize = 0;
    for row in rows {
        add(&mut heads, slots, row, place_of(places, at))?;
        at += 1;
    }
    Ok(Items::of(heads))
}
