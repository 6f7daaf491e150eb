//! What is made of rows once, when a file is read: the headers that they make, since each packet of a row has the headers of its key, and their heads.

ghost use Rattle.std.specs.Prelude.{◌≡◌, ◌++◌, ◌∷◌, [], IfNone, IfOk, IfSome, List, None, OnOk, Some, ℕ, get_or, length, true};
ghost use Rattle.vsw_base.specs.declared.fate.Verdict.{Verdict};
ghost use Rattle.vsw_base.specs.declared.fate.Verdict.TheVariants.{Pass};
ghost use Rattle.vsw_base.specs.declared.flow.Ufid.{Ufid};
ghost use Rattle.vsw_base.specs.declared.header.Header.{Header};
ghost use Rattle.vsw_offload.specs.Private.Heading as spec;
ghost use Rattle.vsw_offload.specs.Private.Heading.{AllMade, AreMade};
ghost use Rattle.vsw_offload.specs.Private.Making.{ArePlaces, EditsNone, IsEditedBy, IsPlaceOf, Stay};
ghost use Rattle.vsw_offload.specs.Rows.{IsPortRows, IsRow};
ghost use Rattle.vsw_policy.specs.Sound.{Each};
ghost use Rattle.vsw_rows.specs.Good.{Row};
ghost use Rattle.vsw_transpose.specs.declared.act.Act.{Act};
ghost use Rattle.vsw_transpose.specs.Apply.{apply};
ghost use Rattle.vsw_transpose.specs.Fits as fit;
ghost use Rattle.vsw_words.specs.Doing.{AreOf};
ghost use Rattle.vsw_words.specs.Key.{key_words};
ghost use Rattle.vsw_words.specs.Law.{IsId};

use crate::heads::{Head, heads_of_port};
use crate::port_rows::PortRows;
use std::alloc::Global;
use vsw_base::{Dir, Items, NoMemory, Stack, Ufid, Verdict};
use vsw_words::{do_words, doing_of, identity_to, verdict_in};

/// What is made of the rows of a port when a file is read.
#[derive(Drop)]
pub(crate) struct Edits {
    /// Heads of rows whose packets pass, in slots of their keys.
    pub heads: Items<Head>,
    /// For each row where the headers stand that it makes, if its packets pass edited.
    pub places: Items<Option<u32>>,
    pub stacks: Items<Stack>,
}

/// Writes the headers that the acts of a pass make.
fn make_pass(key: &[u64; 16], body: &[u64; 57], id: &mut Ufid, made: &mut Stack)
    requires { (r : Row) × IsId r.id × (key.now ≡ key_words r.id.dir r.id.stack) × AreOf body.now Pass r.acts r.until × (fit.fits r.acts r.id.stack ≡ true) }
    ensures { (id : Ufid) (by : List Act) (until : ℕ) → IsId id → key.now ≡ key_words id.dir id.stack → AreOf body.now Pass by until → made.new ≡ apply by id.stack }
{
    if identity_to(key, id) {
        do_words(body, &id.stack, made);
    }
}

/// Whether the acts of a pass edit nothing.
pub(crate) fn is_own(body: &[u64; 57]) -> bool
    requires { (by : List Act) × (until : ℕ) × AreOf body.now Pass by until }
    ensures { result ≡ true → EditsNone body.now }
{
    !doing_of(body).edits
}

/// Whether the packets of a row with this body pass edited.
fn is_edit(body: &[u64; 57]) -> bool
    requires { (v : Verdict) × (by : List Act) × (until : ℕ) × AreOf body.now v by until }
    ensures { result ≡ true → (v : Verdict) (by : List Act) (until : ℕ) → AreOf body.now v by until → v ≡ Pass }
{
    match verdict_in(body) {
        Verdict::Pass => !is_own(body),
        Verdict::Rule { .. } => false,
        Verdict::Default { .. } => false,
    }
}

/// The place behind the last headers, if it can be told.
fn place_behind(stacks: &[Stack]) -> Option<u32>
    ensures { IfSome result (λ place. place ≡ length stacks.now) }
{
    if stacks.len() >= 1 << 30 {
        return None;
    }
    Some(stacks.len() as u32)
}

/// Puts the headers behind the last ones that a row makes of its packets.
fn push_pass(
    key: &[u64; 16],
    body: &[u64; 57],
    id: &mut Ufid,
    stacks: &mut Items<Stack>,
) -> Result<(), NoMemory>
    requires { (r : Row) × IsId r.id × (key.now ≡ key_words r.id.dir r.id.stack) × AreOf body.now Pass r.acts r.until × (fit.fits r.acts r.id.stack ≡ true) }
    ensures { OnOk result ((made : List Header) × (stacks.new ≡ stacks.old ++ made ∷ []) × IsEditedBy key.now body.now made) }
{
    let mut made = Stack::room();
    make_pass(key, body, id, &mut made);
    match stacks.push(made) {
        Ok(()) => Ok(()),
        Err(_) => Err(NoMemory),
    }
}

/// The same, if the row's packets pass edited. It answers where they stand.
fn push_made(
    words: &[u64; 73],
    id: &mut Ufid,
    stacks: &mut Items<Stack>,
) -> Result<Option<u32>, NoMemory>
    requires { IsRow words.now }
    ensures place { IfOk result (λ place. IsPlaceOf words.now stacks.new place) }
    ensures stay { IfOk result (λ place. Stay stacks.old stacks.new) }
{
    let Some(key) = words.first_chunk::<16>() else {
        return Ok(None);
    };
    let Some(body) = words.last_chunk::<57>() else {
        return Ok(None);
    };
    if !is_edit(body) {
        return Ok(None);
    }
    let Some(place) = place_behind(stacks.as_slice()) else {
        return Ok(None);
    };
    push_pass(key, body, id, stacks)?;
    Ok(Some(place))
}

/// Puts the headers that rows make behind others, and answers for each row where they stand.
fn places_of(
    alloc: Global,
    rows: &[[u64; 73]],
    id: &mut Ufid,
    stacks: &mut Items<Stack>,
) -> Result<Items<Option<u32>>, NoMemory>
    requires { Each IsRow rows.now }
    ensures { IfOk result (λ places. ArePlaces rows.now places stacks.new) }
{
    let mut places = Items::new(alloc);
    for row in rows {
        let place = push_made(row, id, stacks)?;
        if places.push(place).is_err() {
            return Err(NoMemory);
        }
    }
    Ok(places)
}

/// What is made of a port's rows.
fn edits_of_port(alloc: Global, rows: &[[u64; 73]], id: &mut Ufid) -> Result<Edits, NoMemory>
    requires { Each IsRow rows.now }
    ensures { IfOk result (λ edits. AreMade rows.now edits) }
{
    let mut stacks = Items::new(alloc);
    let places = places_of(alloc, rows, id, &mut stacks)?;
    let heads = heads_of_port(alloc, rows, places.as_slice())?;
    Ok(Edits {
        heads,
        places,
        stacks,
    })
}

/// What is made of the rows of ports.
pub(crate) fn edits_of_ports(alloc: Global, ports: &[PortRows]) -> Result<Items<Edits>, NoMemory>
    requires { Each IsPortRows ports.now }
    ensures { IfOk result (λ edits. AllMade ports.now edits) }
{
    let mut id = Ufid {
        dir: Dir::Out,
        stack: Stack::room(),
    };
    let mut edits = Items::new(alloc);
    for port in ports {
        let of_port = edits_of_port(alloc, port.rows.as_slice(), &mut id)?;
        if edits.push(of_port).is_err() {
            return Err(NoMemory);
        }
    }
    Ok(edits)
}

/// Those of the port at a place.
pub(crate) fn edits_at(edits: &[Edits], place: u32) -> Option<&Edits>
    ensures some { IfSome result (λ e. spec.made_at edits.now place ≡ Some e.now) }
    ensures none { IfNone result (spec.made_at edits.now place ≡ None) }
{
    match edits.split_first() {
        None => None,
        Some((first, rest)) => {
            if place == 0 {
                Some(first)
            } else {
                edits_at(rest, place - 1)
            }
        }
    }
}

/// Where the headers of the row at a place stand.
#[inline(always)]
pub(crate) fn place_of(places: &[Option<u32>], at: usize) -> Option<u32>
    ensures { result ≡ get_or places.now at None }
{
    match places.get(at) {
        None => None,
        Some(place) => *place,
    }
}
