//! A row comes to stand at the spots of its looks.

ghost use Rattle.std.specs.Prelude.{◌≡◌, ◌<◌, true};
ghost use Rattle.vsw_flows.specs.Leant.{kept_at};
ghost use Rattle.vsw_flows.specs.Spots.{spot_of, stands};
ghost use Rattle.vsw_flows.specs.Standing.{Enters, Settles, StandsAll};

use crate::falling::fall;
use crate::leaning::Leaning;
use crate::story::PortStory;
use vsw_table::{Lookup, Writer};
use vsw_walk::Looked;

/// The row stands at the spot of a look, too, unless memory is wanting. Who gives way there falls.
fn enter_one(
    lookup: &Lookup<PortStory>,
    writer: &mut Writer<PortStory>,
    leaning: &mut Leaning,
    row: u32,
    look: &Looked,
) -> bool
    requires table { writer.old.table ≡ lookup.now.0 }
    requires row { row < 4294967295 }
    ensures enters { Enters row writer.old writer.new leaning.old leaning.new }
    ensures there { result ≡ true → stands leaning.new.spots (spot_of look.now) row ≡ true }
{
    let entered = leaning.enter(row, look);
    fall(lookup, writer, leaning, entered.way);
    entered.done
}

/// The row stands at the spots of these looks, unless memory is wanting.
fn enter(
    lookup: &Lookup<PortStory>,
    writer: &mut Writer<PortStory>,
    leaning: &mut Leaning,
    row: u32,
    looks: &[Looked],
) -> bool
    requires table { writer.old.table ≡ lookup.now.0 }
    requires row { row < 4294967295 }
    ensures enters { Enters row writer.old writer.new leaning.old leaning.new }
    ensures there { result ≡ true → StandsAll leaning.new row looks.now }
{
    let Some((look, rest)) = looks.split_first() else {
        return true;
    };
    if !enter_one(lookup, writer, leaning, row, look) {
        return false;
    }
    enter(lookup, writer, leaning, row, rest)
}

/// The row falls, these are its looks, and it stands at their spots, unless memory is wanting.
pub fn settle(
    lookup: &Lookup<PortStory>,
    writer: &mut Writer<PortStory>,
    leaning: &mut Leaning,
    row: u32,
    looks: &[Looked],
) -> bool
    requires table { writer.old.table ≡ lookup.now.0 }
    requires row { row < 4294967295 }
    ensures settles { Settles row writer.old writer.new leaning.old leaning.new }
    ensures there { result ≡ true → (kept_at leaning.new.kept row ≡ looks.now) × StandsAll leaning.new row looks.now }
{
    fall(lookup, writer, leaning, row + 1);
    if !leaning.keep(row, looks) {
        return false;
    }
    if enter(lookup, writer, leaning, row, looks) {
        return true;
    }
    // Nothing of it stays where it hasn't all.
    leaning.leave(row);
    false
}
