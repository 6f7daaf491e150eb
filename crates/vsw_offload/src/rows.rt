//! The rows of a file.

ghost use Rattle.std.specs.Prelude.{◌≡◌, ◌≤◌, IfOk, IfErr, IfSome, List, length, take, true};
ghost use Rattle.vsw_base.specs.declared.fate.Fate.TheVariants.{Pass};
ghost use Rattle.vsw_frame.specs.Frame.{parts};
ghost use Rattle.vsw_frame.specs.Tiles.{outermost};
ghost use Rattle.vsw_offload.specs.Answered.{AnswersFrame, bytes_given, bytes_left, fate_given};
ghost use Rattle.vsw_offload.specs.Bad.{IsBadRows};
ghost use Rattle.vsw_offload.specs.Rows as spec;
ghost use Rattle.vsw_offload.specs.Rows.{AreRows, rows_bytes};
ghost use Rattle.vsw_policy.specs.Sound.{Each};
ghost use Rattle.vsw_offload.specs.declared.fault.BadRows.TheVariants.{Memory};
ghost use Rattle.vsw_offload.specs.declared.port_rows.PortRows.{PortRows};

use crate::answer::{AnswerRoom, Given, answer};
use crate::fault::BadRows;
use crate::guesses::Guesses;
use crate::making::{Edits, edits_of_ports};
use crate::port_rows::PortRows;
use crate::reading::read_file;
use std::alloc::Global;
use std::marker::Model;
use vsw_base::{Fate, Items, Mac, Moment, NoMemory, Place};
use vsw_frame::{Frame, own_bytes};

/// The rows of a file. Those of each port stand in the order of their keys.
#[derive(Drop)]
pub struct Rows {
    ports: Items<PortRows>,
    /// Their addresses and their numbers, each as a list.
    macs: Items<Mac>,
    numbers: Items<u32>,
    /// What is made of their rows.
    edits: Items<Edits>,
    /// Where rows of a key may stand.
    guesses: Guesses,
}

impl Model for Rows {
    ghost use Rattle.std.specs.Prelude.{◌≡◌, ◌≤◌, List};
    ghost use Rattle.vsw_offload.specs.Private.Heading.{AllMade};
    ghost use Rattle.vsw_offload.specs.Private.Noting.{AllNoted};
    ghost use Rattle.vsw_offload.specs.Rows.{AreRows, macs_of, numbers_of};
    ghost use Rattle.vsw_offload.specs.declared.port_rows.PortRows.{PortRows};

    ghost Value = { List PortRows };

    ghost view = { λ s. s.ports };

    ghost invariant = { λ s. AreRows s.ports × (s.macs ≡ macs_of s.ports) × (s.numbers ≡ numbers_of s.ports) × AllMade s.ports s.edits × (8 ≤ s.guesses.slots) × AllNoted s.guesses.places.items s.guesses.slots s.ports };
}

/// The addresses of ports, in their order.
fn macs_of(alloc: Global, ports: &[PortRows]) -> Result<Items<Mac>, NoMemory>
    ensures { IfOk result (λ macs. macs ≡ spec.macs_of ports.now) }
{
    let mut macs = Items::new(alloc);
    for port in ports {
        if macs.push(port.mac).is_err() {
            return Err(NoMemory);
        }
    }
    Ok(macs)
}

/// The numbers of ports, in their order.
fn numbers_of(alloc: Global, ports: &[PortRows]) -> Result<Items<u32>, NoMemory>
    ensures { IfOk result (λ numbers. numbers ≡ spec.numbers_of ports.now) }
{
    let mut numbers = Items::new(alloc);
    for port in ports {
        if numbers.push(port.port).is_err() {
            return Err(NoMemory);
        }
    }
    Ok(numbers)
}

/// The rows of these ports.
fn with_lists(alloc: Global, ports: Items<PortRows>) -> Result<Rows, NoMemory>
    requires { AreRows ports }
    ensures { IfOk result (λ rows. rows ≡ ports) }
{
    let macs = macs_of(alloc, ports.as_slice())?;
    let numbers = numbers_of(alloc, ports.as_slice())?;
    let edits = edits_of_ports(alloc, ports.as_slice())?;
    let guesses = Guesses::of(alloc, ports.as_slice())?;
    Ok(Rows {
        ports,
        macs,
        numbers,
        edits,
        guesses,
    })
}

/// Writes a frame's own bytes to the front of a room.
fn write_own(frame: &Frame<'_>, out: &mut [u8])
    requires room { length out.old ≡ 65700 }
    ensures { take (length (outermost (parts frame.now).levels)) out.new ≡ outermost (parts frame.now).levels }
{
    let bytes = own_bytes(frame);
    out[..bytes.len()].copy_from_slice(bytes);
}

impl Rows {
    /// The rows of a file of these bytes, or why they are none: the first part, as they are read, that is at fault. A rows file is
    /// refused for want of memory alone.
    pub fn read(alloc: Global, bytes: &[u8]) -> Result<Rows, BadRows>
        ensures are { IfOk result (λ rows. AreRows rows) }
        ensures file { IfOk result (λ rows. bytes.now ≡ rows_bytes rows) }
        ensures bad { IfErr result (λ why. IsBadRows bytes.now why) }
        ensures taken { (ps : List PortRows) → AreRows ps → bytes.now ≡ rows_bytes ps → IfErr result (λ why. why ≡ Memory) }
        ensures same { (ps : List PortRows) → AreRows ps → bytes.now ≡ rows_bytes ps → IfOk result (λ rows. rows ≡ ps) }
    {
        let ports = read_file(alloc, bytes)?;
        match with_lists(alloc, ports) {
            Ok(rows) => Ok(rows),
            Err(_) => Err(BadRows::Memory),
        }
    }

    /// The ports' addresses, in the file's order.
    pub fn macs(&self) -> &[Mac]
        ensures macs { result.now ≡ spec.macs_of self.now }
        ensures few { length result.now ≤ 16 }
    {
        self.macs.as_slice()
    }

    /// The ports' numbers, in the file's order.
    pub fn ports(&self) -> &[u32]
        ensures numbers { result.now ≡ spec.numbers_of self.now }
        ensures few { length result.now ≤ 16 }
    {
        self.numbers.as_slice()
    }

    /// The ports with their rows, in the file's order.
    pub fn port_rows(&self) -> &[PortRows]
        ensures all { result.now ≡ self.now }
        ensures are { AreRows self.now }
        ensures ports { length result.now ≤ 16 }
        ensures rows { Each (λ p. length p.rows ≤ 16384) result.now }
    {
        self.ports.as_slice()
    }

    /// What the rows answer a frame that comes to a port, or goes out of it, at a moment: its fate, with its outgoing bytes at the
    /// front of `out` if it passes. None if the frame has a control, no row is of its identity, or its row isn't good so late.
    pub fn answer(
        &self,
        place: Place,
        frame: &Frame<'_>,
        moment: Moment,
        out: &mut [u8],
    ) -> Option<Fate>
        requires room { length out.old ≡ 65700 }
        ensures { AnswersFrame self.now place (parts frame.now) moment result (bytes_left result out.new) }
    {
        self.answer_in(place, frame, moment, &mut AnswerRoom::new(), out)
    }

    /// The same, made in rooms that live on.
    pub fn answer_in(
        &self,
        place: Place,
        frame: &Frame<'_>,
        moment: Moment,
        room: &mut AnswerRoom,
        out: &mut [u8],
    ) -> Option<Fate>
        requires room { length out.old ≡ 65700 }
        ensures { AnswersFrame self.now place (parts frame.now) moment result (bytes_left result out.new) }
    {
        match self.answer_own(place, frame, moment, room, out) {
            None => None,
            Some(given) => {
                if given.own {
                    write_own(frame, out);
                }
                Some(given.fate)
            }
        }
    }

    /// The same, but for a frame that passes with its own bytes: these aren't written.
    pub fn answer_own(
        &self,
        place: Place,
        frame: &Frame<'_>,
        moment: Moment,
        room: &mut AnswerRoom,
        out: &mut [u8],
    ) -> Option<Given>
        requires room { length out.old ≡ 65700 }
        ensures answered { AnswersFrame self.now place (parts frame.now) moment (fate_given result) (bytes_given (parts frame.now) result out.new) }
        ensures own { IfSome result (λ g. g.own ≡ true → g.fate ≡ Pass (length (outermost (parts frame.now).levels))) }
    {
        answer(
            self.ports.as_slice(),
            self.edits.as_slice(),
            &self.guesses,
            place,
            frame,
            moment,
            room,
            out,
        )
    }
}
