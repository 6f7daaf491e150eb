//! What rows answer a frame.

ghost use Rattle.std.specs.Prelude.{◌≡◌, ◌≤◌, ◌<◌, ◌+◌, ℕ, IfNone, IfSome, List, Ok, Some, [], drop, get_or, length, true, false};
ghost use Rattle.vsw_base.specs.declared.fate.Fate.TheVariants as fate;
ghost use Rattle.vsw_base.specs.declared.fate.Verdict.TheVariants as verdict;
ghost use Rattle.vsw_base.specs.declared.flow.Ufid.{Ufid};
ghost use Rattle.vsw_base.specs.declared.header.Header.{Header};
ghost use Rattle.vsw_base.specs.declared.packet.Control.TheVariants as control;
ghost use Rattle.vsw_base.specs.Shape.{encaps};
ghost use Rattle.vsw_frame.specs.Bytes as bytes;
ghost use Rattle.vsw_frame.specs.Frame.{parts};
ghost use Rattle.vsw_frame.specs.Tiles.{outermost};
ghost use Rattle.vsw_offload.specs.Answered as spec;
ghost use Rattle.vsw_offload.specs.Answered.{AnswersFrame, bytes_given, bytes_told, fate_by, fate_given, passed};
ghost use Rattle.vsw_offload.specs.Private.Heading.{AllMade, AnswersByHead, AreMade, PassesFrame};
ghost use Rattle.vsw_offload.specs.Private.Making.{IsEdited, IsMadeOf};
ghost use Rattle.vsw_offload.specs.Private.Noting.{AllNoted};
ghost use Rattle.vsw_offload.specs.Private.Saying.{AreBytesBy, AreBytesOfPass, IsFateOfPass, OfActs, SaysOf, SaysRow, bytes_with};
ghost use Rattle.vsw_offload.specs.Rows.{AreRows, IsRow, key_of};
ghost use Rattle.vsw_policy.specs.Sound.{Each};
ghost use Rattle.vsw_rows.specs.Good.{Row};
ghost use Rattle.vsw_transpose.specs.declared.act.Act.{Act};
ghost use Rattle.vsw_transpose.specs.Apply.{apply};
ghost use Rattle.vsw_transpose.specs.Fits as fit;
ghost use Rattle.vsw_transpose.specs.Form.{is_form};
ghost use Rattle.vsw_words.specs.Doing.{AreOf};
ghost use Rattle.vsw_words.specs.Key as key;
ghost use Rattle.vsw_words.specs.Law.{IsId};

use crate::finding::{find, guessed};
use crate::guesses::Guesses;
use crate::heads::head_for;
use crate::making::{Edits, edits_at, place_of};
use crate::port_rows::PortRows;
use vsw_base::{Cause, Control, Dir, Fate, Moment, Place, Stack, Ufid, Verdict};
use vsw_frame::{Frame, own_bytes, rewrite_to};
use vsw_words::{do_words, doing_of, key_words, until_in, verdict_in};

/// The fate that a row gives a frame.
#[derive(Clone, Copy, Debug, PartialEq, Eq)]
pub struct Given {
    pub fate: Fate,
    /// Whether it passes with its own bytes: nothing was written then.
    pub own: bool,
}

/// Rooms in which answers are made. They live on: make them once.
#[derive(Drop)]
pub struct AnswerRoom {
    id: Ufid,
    key: [u64; 16],
    edited: Stack,
}

impl AnswerRoom {
    /// It clears room for two stacks and for a key.
    pub fn new() -> AnswerRoom {
        AnswerRoom {
            id: Ufid {
                dir: Dir::Out,
                stack: Stack::room(),
            },
            key: [0; 16],
            edited: Stack::room(),
        }
    }
}

/// The rows of the port at a place.
fn rows_at(ports: &[PortRows], place: u32) -> &[[u64; 73]]
    ensures { result.now ≡ spec.rows_at ports.now place }
{
    match ports.split_first() {
        None => &[],
        Some((first, rest)) => {
            if place == 0 {
                first.rows.as_slice()
            } else {
                rows_at(rest, place - 1)
            }
        }
    }
}

/// Whether a frame has no control.
fn is_plain(frame: &Frame<'_>) -> bool
    ensures told { result ≡ true → (parts frame.now).control ≡ control.None }
    ensures back { (parts frame.now).control ≡ control.None → result ≡ true }
{
    match frame.control() {
        Control::None => true,
        Control::Syn => false,
        Control::SynAck => false,
        Control::Fin => false,
        Control::Rst => false,
    }
}

/// Writes the key of a frame that goes this way.
fn write_key(dir: Dir, frame: &Frame<'_>, id: &mut Ufid, out: &mut [u64; 16])
    ensures key { out.new ≡ key.key_words dir (parts frame.now).stack }
    ensures id { IsId (record { dir = dir; stack = (parts frame.now).stack }) }
{
    id.dir = dir;
    id.stack.copy_from(frame.stack());
    // It tells the proof that the headers are those of a stack.
    let _ = id.stack.headers();
    key_words(id, out);
}

fn dropped(cause: Cause) -> Given
    ensures { result ≡ record { fate = fate.Drop cause; own = false } }
{
    Given {
        fate: Fate::Drop(cause),
        own: false,
    }
}

/// A frame of which nothing is edited passes with its own bytes.
fn unedited(frame: &Frame<'_>) -> Given
    ensures given { result ≡ record { fate = fate.Pass (length (outermost (parts frame.now).levels)); own = true } }
    ensures bytes { bytes.outgoing (parts frame.now) (parts frame.now).stack (encaps (parts frame.now).stack) ≡ outermost (parts frame.now).levels }
    ensures answer { bytes.answer (parts frame.now) (parts frame.now).stack (encaps (parts frame.now).stack) ≡ Ok (length (outermost (parts frame.now).levels)) }
{
    Given {
        fate: Fate::Pass {
            len: own_bytes(frame).len() as u32,
        },
        own: true,
    }
}

/// Writes a frame's bytes with these headers, of which so many encapsulations were kept, unless they get too many.
fn edited_to(frame: &Frame<'_>, edited: &Stack, kept: u8, out: &mut [u8]) -> Given
    requires edit { bytes.IsEdit (parts frame.now).stack edited.now kept }
    requires room { length out.old ≡ 65700 }
    ensures fate { result.fate ≡ passed (bytes.answer (parts frame.now) edited.now kept) }
    ensures own { result.own ≡ false }
    ensures bytes { bytes_told result.own (parts frame.now) result.fate out.new ≡ bytes_with (parts frame.now) edited.now kept result.fate }
{
    match rewrite_to(frame, edited, kept, out) {
        Ok(len) => Given {
            fate: Fate::Pass { len: len as u32 },
            own: false,
        },
        Err(_) => dropped(Cause::Long),
    }
}

/// How many encapsulations of a frame the acts of the words keep. Most frames have none.
#[inline(always)]
fn kept_by(words: &[u64; 57], frame: &Frame<'_>) -> u8
    requires body { (by : List Act) × (until : ℕ) × AreOf words.now verdict.Pass by until × (fit.fits by (parts frame.now).stack ≡ true) }
    ensures { (by : List Act) (until : ℕ) → AreOf words.now verdict.Pass by until → fit.fits by (parts frame.now).stack ≡ true → result ≡ fit.kept by }
{
    let stack = frame.stack();
    // It tells the proof that the headers are those of a stack.
    let _ = stack.headers();
    let encaps = stack.encaps();
    if encaps == 0 {
        return 0;
    }
    encaps.saturating_sub(doing_of(words).pops)
}

/// A frame passes with the headers that the acts of the words make, unless it gets too long.
#[inline(always)]
fn edit_made(words: &[u64; 57], made: &Stack, frame: &Frame<'_>, out: &mut [u8]) -> Given
    requires body { (by : List Act) × (until : ℕ) × AreOf words.now verdict.Pass by until × (fit.fits by (parts frame.now).stack ≡ true) }
    requires made { (by : List Act) (until : ℕ) → AreOf words.now verdict.Pass by until → made.now ≡ apply by (parts frame.now).stack }
    requires room { length out.old ≡ 65700 }
    ensures fate { IsFateOfPass words.now (parts frame.now) result.fate }
    ensures bytes { AreBytesOfPass words.now (parts frame.now) result out.new }
    ensures own { result.own ≡ false }
{
    let kept = kept_by(words, frame);
    // It tells the proof that the headers are those of a stack.
    let _ = frame.stack().headers();
    edited_to(frame, made, kept, out)
}

/// A frame passes as the acts of the words make it.
fn pass_anew(words: &[u64; 57], frame: &Frame<'_>, edited: &mut Stack, out: &mut [u8]) -> Given
    requires body { (by : List Act) × (until : ℕ) × AreOf words.now verdict.Pass by until × (fit.fits by (parts frame.now).stack ≡ true) }
    requires room { length out.old ≡ 65700 }
    ensures fate { IsFateOfPass words.now (parts frame.now) result.fate }
    ensures bytes { AreBytesOfPass words.now (parts frame.now) result out.new }
    ensures own { result.own ≡ true → result.fate ≡ fate.Pass (length (outermost (parts frame.now).levels)) }
{
    // It tells the proof that the headers are those of a stack.
    let _ = frame.stack().headers();
    if doing_of(words).edits {
        do_words(words, frame.stack(), edited);
        edit_made(words, edited, frame, out)
    } else {
        unedited(frame)
    }
}

/// A frame passes as the acts of the words make it, or as it was made, if it was.
#[inline(always)]
fn pass(
    words: &[u64; 57],
    made: Option<&Stack>,
    frame: &Frame<'_>,
    edited: &mut Stack,
    out: &mut [u8],
) -> Given
    requires body { (by : List Act) × (until : ℕ) × AreOf words.now verdict.Pass by until × (fit.fits by (parts frame.now).stack ≡ true) }
    requires made { IfSome made (λ m. IsMadeOf words.now m.now (parts frame.now).stack) }
    requires room { length out.old ≡ 65700 }
    ensures fate { IsFateOfPass words.now (parts frame.now) result.fate }
    ensures bytes { AreBytesOfPass words.now (parts frame.now) result out.new }
    ensures own { result.own ≡ true → result.fate ≡ fate.Pass (length (outermost (parts frame.now).levels)) }
{
    match made {
        Some(made) => edit_made(words, made, frame, out),
        None => pass_anew(words, frame, edited, out),
    }
}

/// What the words of a row's body make of a frame. Where it passes edited, its bytes stand at the front of the room.
#[inline(always)]
fn given_by(
    words: &[u64; 57],
    made: Option<&Stack>,
    frame: &Frame<'_>,
    edited: &mut Stack,
    out: &mut [u8],
) -> Given
    requires body { (r : Row) × SaysOf words.now r (parts frame.now) }
    requires made { IfSome made (λ m. IsMadeOf words.now m.now (parts frame.now).stack) }
    requires room { length out.old ≡ 65700 }
    ensures fate { (r : Row) → SaysOf words.now r (parts frame.now) → result.fate ≡ fate_by r.acts (parts frame.now) r.verdict }
    ensures bytes { (r : Row) → SaysOf words.now r (parts frame.now) → AreBytesBy r.acts (parts frame.now) result out.new }
    ensures own { result.own ≡ true → result.fate ≡ fate.Pass (length (outermost (parts frame.now).levels)) }
{
    match verdict_in(words) {
        Verdict::Pass => pass(words, made, frame, edited, out),
        Verdict::Rule {
            controller,
            layer,
            group,
            rule,
        } => dropped(Cause::Rule {
            controller,
            layer,
            group,
            rule,
        }),
        Verdict::Default {
            controller,
            layer,
            dir,
        } => dropped(Cause::Default {
            controller,
            layer,
            dir,
        }),
    }
}

/// What the words of a row's body answer a frame up to their until.
#[inline(always)]
fn by_body(
    words: &[u64; 57],
    made: Option<&Stack>,
    frame: &Frame<'_>,
    moment: Moment,
    edited: &mut Stack,
    out: &mut [u8],
) -> Option<Given>
    requires body { (r : Row) × SaysOf words.now r (parts frame.now) }
    requires made { IfSome made (λ m. IsMadeOf words.now m.now (parts frame.now).stack) }
    requires room { length out.old ≡ 65700 }
    ensures early { (r : Row) → SaysOf words.now r (parts frame.now) → IfSome result (λ g. moment ≤ r.until) }
    ensures fate { (r : Row) → SaysOf words.now r (parts frame.now) → IfSome result (λ g. g.fate ≡ fate_by r.acts (parts frame.now) r.verdict) }
    ensures bytes { (r : Row) → SaysOf words.now r (parts frame.now) → IfSome result (λ g. AreBytesBy r.acts (parts frame.now) g out.new) }
    ensures late { (r : Row) → SaysOf words.now r (parts frame.now) → IfNone result (r.until < moment) }
    ensures own { IfSome result (λ g. g.own ≡ true → g.fate ≡ fate.Pass (length (outermost (parts frame.now).levels))) }
{
    if until_in(words).micros() < moment.micros() {
        return None;
    }
    Some(given_by(words, made, frame, edited, out))
}

/// What a row of a frame's identity answers it.
#[inline(always)]
fn by_row(
    words: &[u64; 73],
    made: Option<&Stack>,
    frame: &Frame<'_>,
    moment: Moment,
    edited: &mut Stack,
    out: &mut [u8],
) -> Option<Given>
    requires row { (r : Row) × SaysRow words.now r (parts frame.now) }
    requires made { IfSome made (λ m. IsMadeOf (drop 16 words.now) m.now (parts frame.now).stack) }
    requires room { length out.old ≡ 65700 }
    ensures early { (r : Row) → SaysRow words.now r (parts frame.now) → IfSome result (λ g. moment ≤ r.until) }
    ensures fate { (r : Row) → SaysRow words.now r (parts frame.now) → IfSome result (λ g. g.fate ≡ fate_by r.acts (parts frame.now) r.verdict) }
    ensures bytes { (r : Row) → SaysRow words.now r (parts frame.now) → IfSome result (λ g. AreBytesBy r.acts (parts frame.now) g out.new) }
    ensures late { (r : Row) → SaysRow words.now r (parts frame.now) → IfNone result (r.until < moment) }
    ensures own { IfSome result (λ g. g.own ≡ true → g.fate ≡ fate.Pass (length (outermost (parts frame.now).levels))) }
{
    match words.last_chunk::<57>() {
        None => None,
        Some(body) => by_body(body, made, frame, moment, edited, out),
    }
}

/// The headers at a place.
#[inline(always)]
fn made_for(made: &[Stack], at: usize) -> Option<&Stack>
    ensures { IfSome result (λ m. (at < length made.now) × ((d : List Header) → m.now ≡ get_or made.now at d)) }
{
    made.get(at)
}

/// The headers that the row at a place makes.
#[inline(always)]
fn made_in(edits: &Edits, at: usize) -> Option<&Stack>
    ensures { (rows : List (List ℕ)) → AreMade rows edits.now → IfSome result (λ m. IsEdited (get_or rows at []) m.now) }
{
    match place_of(edits.places.as_slice(), at) {
        None => None,
        Some(place) => made_for(edits.stacks.as_slice(), place as usize),
    }
}

/// What the row at a place answers a frame of its identity.
#[inline(always)]
fn by_place(
    rows: &[[u64; 73]],
    edits: &Edits,
    at: usize,
    frame: &Frame<'_>,
    moment: Moment,
    edited: &mut Stack,
    out: &mut [u8],
) -> Option<Given>
    requires within { at < length rows.now }
    requires row { (r : Row) × SaysRow (get_or rows.now at []) r (parts frame.now) }
    requires made { AreMade rows.now edits.now }
    requires id { (id : Ufid) × IsId id × (key_of (get_or rows.now at []) ≡ key.key_words id.dir id.stack) × (id.stack ≡ (parts frame.now).stack) }
    requires room { length out.old ≡ 65700 }
    ensures early { (r : Row) → SaysRow (get_or rows.now at []) r (parts frame.now) → IfSome result (λ g. moment ≤ r.until) }
    ensures fate { (r : Row) → SaysRow (get_or rows.now at []) r (parts frame.now) → IfSome result (λ g. g.fate ≡ fate_by r.acts (parts frame.now) r.verdict) }
    ensures bytes { (r : Row) → SaysRow (get_or rows.now at []) r (parts frame.now) → IfSome result (λ g. AreBytesBy r.acts (parts frame.now) g out.new) }
    ensures late { (r : Row) → SaysRow (get_or rows.now at []) r (parts frame.now) → IfNone result (r.until < moment) }
    ensures own { IfSome result (λ g. g.own ≡ true → g.fate ≡ fate.Pass (length (outermost (parts frame.now).levels))) }
{
    let made = made_in(edits, at);
    by_row(&rows[at], made, frame, moment, edited, out)
}

/// A frame without encapsulations passes with these headers.
#[inline(always)]
fn edit_bare(made: &Stack, frame: &Frame<'_>, out: &mut [u8]) -> Given
    requires bare { encaps (parts frame.now).stack ≡ 0 }
    requires edit { (by : List Act) × (is_form by ≡ true) × (fit.fits by (parts frame.now).stack ≡ true) × (made.now ≡ apply by (parts frame.now).stack) }
    requires room { length out.old ≡ 65700 }
    ensures fate { OfActs (parts frame.now) made.now (λ by. result.fate ≡ fate_by by (parts frame.now) verdict.Pass) }
    ensures bytes { OfActs (parts frame.now) made.now (λ by. AreBytesBy by (parts frame.now) result out.new) }
    ensures own { result.own ≡ false }
{
    // It tells the proof that the headers are those of a stack.
    let _ = frame.stack().headers();
    edited_to(frame, made, 0, out)
}

/// Whether a frame has no encapsulation.
#[inline(always)]
fn is_bare(frame: &Frame<'_>) -> bool
    ensures { result ≡ true → encaps (parts frame.now).stack ≡ 0 }
{
    frame.stack().encaps() == 0
}

/// What headers at a place make of a frame.
#[inline(always)]
fn by_stack(stacks: &[Stack], place: u32, frame: &Frame<'_>, out: &mut [u8]) -> Option<Given>
    requires frame { (r : Row) × PassesFrame (parts frame.now) stacks.now (Some place) r }
    requires room { length out.old ≡ 65700 }
    ensures fate { (r : Row) → PassesFrame (parts frame.now) stacks.now (Some place) r → IfSome result (λ g. g.fate ≡ fate_by r.acts (parts frame.now) r.verdict) }
    ensures bytes { (r : Row) → PassesFrame (parts frame.now) stacks.now (Some place) r → IfSome result (λ g. AreBytesBy r.acts (parts frame.now) g out.new) }
    ensures own { IfSome result (λ g. g.own ≡ false) }
{
    if !is_bare(frame) {
        return None;
    }
    match made_for(stacks, place as usize) {
        None => None,
        Some(made) => Some(edit_bare(made, frame, out)),
    }
}

/// What a head of its key answers a frame.
#[inline(always)]
fn by_head(stacks: &[Stack], place: Option<u32>, frame: &Frame<'_>, out: &mut [u8]) -> Option<Given>
    requires frame { (r : Row) × PassesFrame (parts frame.now) stacks.now place r }
    requires room { length out.old ≡ 65700 }
    ensures fate { (r : Row) → PassesFrame (parts frame.now) stacks.now place r → IfSome result (λ g. g.fate ≡ fate_by r.acts (parts frame.now) r.verdict) }
    ensures bytes { (r : Row) → PassesFrame (parts frame.now) stacks.now place r → IfSome result (λ g. AreBytesBy r.acts (parts frame.now) g out.new) }
    ensures own { IfSome result (λ g. g.own ≡ true → g.fate ≡ fate.Pass (length (outermost (parts frame.now).levels))) }
{
    match place {
        None => Some(unedited(frame)),
        Some(place) => by_stack(stacks, place, frame, out),
    }
}

/// What is answered from heads alone.
#[inline(always)]
fn by_heads(
    edits: &Edits,
    words: &[u64; 16],
    frame: &Frame<'_>,
    moment: Moment,
    out: &mut [u8],
) -> Option<Given>
    requires made { (rows : List (List ℕ)) × AreMade rows edits.now × Each IsRow rows }
    requires id { (id : Ufid) × IsId id × (words.now ≡ key.key_words id.dir id.stack) × (id.stack ≡ (parts frame.now).stack) }
    requires room { length out.old ≡ 65700 }
    ensures answered { AnswersByHead edits.now words.now moment (parts frame.now) result out.new }
    ensures own { IfSome result (λ g. g.own ≡ true → g.fate ≡ fate.Pass (length (outermost (parts frame.now).levels))) }
{
    match head_for(edits.heads.as_slice(), words, moment) {
        None => None,
        Some(head) => by_head(edits.stacks.as_slice(), head.place, frame, out),
    }
}

/// What rows answer a frame at a port and a moment.
pub(crate) fn answer(
    ports: &[PortRows],
    edits: &[Edits],
    guesses: &Guesses,
    place: Place,
    frame: &Frame<'_>,
    moment: Moment,
    room: &mut AnswerRoom,
    out: &mut [u8],
) -> Option<Given>
    requires are { AreRows ports.now }
    requires made { AllMade ports.now edits.now }
    requires slots { 8 ≤ guesses.now.slots }
    requires noted { AllNoted guesses.now.places.items guesses.now.slots ports.now }
    requires room { length out.old ≡ 65700 }
    ensures answered { AnswersFrame ports.now place (parts frame.now) moment (fate_given result) (bytes_given (parts frame.now) result out.new) }
    ensures own { IfSome result (λ g. g.own ≡ true → g.fate ≡ fate.Pass (length (outermost (parts frame.now).levels))) }
{
    if !is_plain(frame) {
        return None;
    }
    write_key(place.dir, frame, &mut room.id, &mut room.key);
    let Some(edits) = edits_at(edits, place.port) else {
        return None;
    };
    if let Some(given) = by_heads(edits, &room.key, frame, moment, out) {
        return Some(given);
    }
    let rows = rows_at(ports, place.port);
    let slot = guesses.slot(&room.key);
    if guesses.is_free(slot) {
        return None;
    }
    match guessed(rows, guesses, slot, &room.key) {
        Some(at) => by_place(rows, edits, at, frame, moment, &mut room.edited, out),
        None => match find(rows, &room.key) {
            None => None,
            Some(words) => by_row(words, None, frame, moment, &mut room.edited, out),
        },
    }
}
