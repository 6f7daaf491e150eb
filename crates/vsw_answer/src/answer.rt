//! A packet looks for the row of its identity.

ghost use Rattle.std.specs.Prelude.{◌≡◌, ◌<◌, ◌≤◌, ◌+◌, ◌%◌, ◌++◌, ℕ, List, length};
ghost use Rattle.vsw_answer.specs.Answers.{HasHit, Sees, Tells};
ghost use Rattle.vsw_answer.specs.Private.Said.{IsFound, Says};
ghost use Rattle.vsw_base.specs.declared.packet.Control.TheVariants as control;
ghost use Rattle.vsw_flows.specs.Flows.{IsOf};
ghost use Rattle.vsw_port.specs.declared.event.Event.{Event};
ghost use Rattle.vsw_port.specs.History.{Opening};
ghost use Rattle.vsw_table.specs.Answers.{IfHit, IfMiss};
ghost use Rattle.vsw_table.specs.Held.{IsRead, Missed};
ghost use Rattle.vsw_rows.specs.GoodRows.{opening_of};
ghost use Rattle.vsw_words.specs.Key as spec;
ghost use Rattle.vsw_words.specs.Law.{IsId};
ghost use Rattle.vsw_words.specs.Slot.{slot};

use crate::desk::Desk;
use crate::outcome::outcome_by;
use vsw_base::{Control, Crossing, Stack, Ufid};
use vsw_flows::PortStory;
use vsw_port::Outcome;
use vsw_table::{Look, Lookup, Pass};
use vsw_words::{key_words, slot_of, until_in};

/// What the rows tell of a packet.
#[derive(Clone, Copy, Debug, PartialEq, Eq)]
pub enum RowAnswer {
    /// A current row answers it, as the layers do after `count` entries, and it changes nothing there.
    Read { outcome: Outcome, count: u32 },
    /// The packet has a control, so that no row may answer it. Nothing was looked for.
    Control,
    /// None of the eight rows was seen to be current and of the packet's identity.
    Miss,
    /// A current row of its identity was found, but the packet comes after the row's until.
    Late,
}

/// Looks for a row that answers the packet, with no lock and no memory. Where one does and the packet passes, the desk
/// has its edited headers.
pub fn answer_by_row(
    lookup: &Lookup<PortStory>,
    pass: &mut Pass<PortStory>,
    crossing: &Crossing,
    desk: &mut Desk,
) -> RowAnswer
    requires pass { IsOf lookup.now pass.old }
    ensures same { IsRead pass.old.view pass.new.view × (pass.new.table ≡ pass.old.table) }
    ensures tells { Tells lookup.now crossing.now pass.old.view pass.new.view desk.new result }
    ensures sees { Sees lookup.now crossing.now pass.old.view pass.new.view result }
{
    if crossing.control != Control::None {
        return RowAnswer::Control;
    }
    match seek(lookup, pass, &crossing.id, &mut desk.key, &mut desk.words) {
        Look::Miss { .. } => RowAnswer::Miss,
        Look::Hit { count } => answer(crossing, count, &desk.words, &mut desk.edited),
    }
}

/// Looks for the row of an identity from the slot of its key on.
fn seek(
    lookup: &Lookup<PortStory>,
    pass: &mut Pass<PortStory>,
    id: &Ufid,
    key: &mut [u64; 16],
    words: &mut [u64; 57],
) -> Look
    requires pass { IsOf lookup.now pass.old }
    ensures same { IsRead pass.old.view pass.new.view × (pass.new.table ≡ pass.old.table) }
    ensures begun { pass.old.view.looks < pass.new.view.looks }
    ensures hit { IfHit result (λ n. (length pass.new.view.front ≡ n) × IsFound (opening_of lookup.now.1) pass.new.view.front id.now words.new) }
    ensures found { IfHit result (λ n. HasHit lookup.now id.now pass.new.view (spec.key_words id.now.dir id.now.stack ++ words.new)) }
    ensures miss { IfMiss result (λ n. (length pass.new.view.front ≡ n) × ((j : ℕ) → j < 8 → Missed (spec.key_words id.now.dir id.now.stack) ((slot (spec.key_words id.now.dir id.now.stack) lookup.now.2 + j) % lookup.now.2) pass.new.view.last)) }
    ensures id { IsId id.now }
{
    // It tells the proof that the headers are those of a stack.
    let _ = id.stack.headers();
    key_words(id, key);
    let slot = slot_of(key, lookup.rows());
    lookup.look(pass, slot, key, words)
}

/// What a row that was found says of the packet.
fn answer(crossing: &Crossing, count: u32, words: &[u64; 57], edited: &mut Stack) -> RowAnswer
    requires control { crossing.now.control ≡ control.None }
    requires id { IsId crossing.now.id }
    requires found { (o : Opening) × (h : List Event) × IsFound o h crossing.now.id words.now }
    ensures says { (o : Opening) (h : List Event) → IsFound o h crossing.now.id words.now → count ≡ length h → Says o h crossing.now words.now edited.new result }
{
    if until_in(words).micros() < crossing.moment.micros() {
        return RowAnswer::Late;
    }
    RowAnswer::Read {
        outcome: outcome_by(crossing, words, edited),
        count,
    }
}
