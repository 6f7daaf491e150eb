//! The row that is made of a packet's walk.

ghost use Rattle.std.specs.Prelude.{◌≡◌, ◌<◌, List, false, true};
ghost use Rattle.vsw_base.specs.declared.fate.Verdict.TheVariants.{Pass};
ghost use Rattle.vsw_base.specs.declared.packet.Control.TheVariants as control;
ghost use Rattle.vsw_port.specs.Cross.{makes};
ghost use Rattle.vsw_flows.specs.Flows.{IsOf, Puts};
ghost use Rattle.vsw_core.specs.Walks.{IsWholeWalk, SaysRowOf};
ghost use Rattle.vsw_policy.specs.Layer.{LayerSeen};
ghost use Rattle.vsw_rows.specs.Rows.{layers_after};
ghost use Rattle.vsw_transpose.specs.Apply.{apply};
ghost use Rattle.vsw_transpose.specs.Fits as fit;
ghost use Rattle.vsw_walk.specs.Made.{Leads};
ghost use Rattle.vsw_words.specs.Row.{IsBare};

use crate::rooms::Rooms;
use vsw_base::{Crossing, Verdict};
use vsw_flows::{PortStory, Rows};
use vsw_table::Lookup;
use vsw_transpose::{Acts, Transposition};
use vsw_walk::{Scratch, Walked};
use vsw_words::row_of;

/// What a walk did to a packet that passes. A row of a drop has no acts.
fn acts_of(crossing: &Crossing, walked: &Walked, scratch: &Scratch, out: &mut Transposition)
    requires leads { Leads crossing.now.id.stack scratch.now walked.now.kept }
    ensures bare { IsBare walked.now.verdict out.new }
    ensures fits { walked.now.verdict ≡ Pass → fit.fits out.new crossing.now.id.stack ≡ true }
    ensures stack { walked.now.verdict ≡ Pass → apply out.new crossing.now.id.stack ≡ scratch.now.stack }
    ensures kept { walked.now.verdict ≡ Pass → fit.kept out.new ≡ walked.now.kept }
{
    match walked.verdict {
        Verdict::Pass => walked.compose(&crossing.id.stack, scratch, out),
        Verdict::Rule { .. } => *out = Transposition::new(Acts::new()),
        Verdict::Default { .. } => *out = Transposition::new(Acts::new()),
    }
}

/// The words of the row of a walk.
fn words_of(crossing: &Crossing, walked: &Walked, scratch: &Scratch, rooms: &mut Rooms)
    requires leads { Leads crossing.now.id.stack scratch.now walked.now.kept }
    requires control { crossing.now.control ≡ control.None }
    requires pair { walked.now.verdict ≡ Pass → makes scratch.now.changes ≡ false }
    ensures row { (ls : List LayerSeen) → IsWholeWalk ls crossing.now walked.now scratch.now → SaysRowOf ls crossing.now rooms.new.words }
{
    // It tells the proof that the stack is one.
    let _ = crossing.id.stack.headers();
    acts_of(crossing, walked, scratch, &mut rooms.by);
    row_of(
        &crossing.id,
        &walked.verdict,
        &rooms.by,
        walked.until,
        &mut rooms.words,
    );
}

/// Puts the row of a packet's walk over the layers of now; answers whether there was memory for its looks. The packet has
/// no control, and makes no pair if it passes.
pub fn write_row(
    lookup: &Lookup<PortStory>,
    rows: &mut Rows,
    row: u32,
    crossing: &Crossing,
    walked: &Walked,
    scratch: &Scratch,
    rooms: &mut Rooms,
) -> bool
    requires core { IsOf lookup.now rows.old }
    requires row { row < lookup.now.2 }
    requires control { crossing.now.control ≡ control.None }
    requires pair { walked.now.verdict ≡ Pass → makes scratch.now.changes ≡ false }
    requires walk { IsWholeWalk (layers_after lookup.now.1 rows.old.view.history) crossing.now walked.now scratch.now }
    ensures puts { Puts rows.old rows.new row rooms.new.words result }
    ensures row { SaysRowOf (layers_after lookup.now.1 rows.old.view.history) crossing.now rooms.new.words }
{
    words_of(crossing, walked, scratch, rooms);
    rows.put(lookup, row, &rooms.words, scratch.looked())
}
