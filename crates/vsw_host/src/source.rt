//! Reading a file in pieces.

ghost use Rattle.std.specs.Prelude.{◌≡◌, ◌<◌, [], length};
ghost use Rattle.vsw_host.specs.Source.{NextPiece, OpensSource};

use crate::host::{Failed, Host};
use crate::reading::{PIECE, zeros};
use std::alloc::Global;
use std::marker::Model;
use std::mem::replace;

/// Why a file wasn't opened.
#[derive(Clone, Copy, Debug, PartialEq, Eq)]
pub enum Unopened {
    /// The host couldn't open it.
    Fault,
    /// There was no memory for a piece. Nothing was opened.
    Memory,
}

/// A file that is read in pieces, each into a room of the caller's.
#[derive(Drop)]
pub struct Source {
    file: u32,
    /// Room for a piece, until it is taken.
    room: Vec<u8>,
}

impl Model for Source {
    ghost use Rattle.vsw_host.specs.Source.{SourceSeen};

    ghost Value = { SourceSeen };

    ghost view = { λ s. record { file = s.file; room = s.room.items } };
}

impl Source {
    /// Opens the file of this name. It takes memory for one piece of 65,536 bytes.
    pub fn open<H: Host>(alloc: Global, host: &mut H, name: &str) -> Result<Source, Unopened>
        ensures { OpensSource (H.outside host.old) (H.outside host.new) name.now result }
    {
        let Ok(room) = zeros(alloc, PIECE) else {
            return Err(Unopened::Memory);
        };
        match host.open(name) {
            Ok(file) => Ok(Source { file, room }),
            Err(_) => Err(Unopened::Fault),
        }
    }

    /// Takes the room for a piece, and leaves none.
    pub fn take_room(&mut self, alloc: Global) -> Vec<u8>
        ensures room { result.items ≡ self.old.room }
        ensures rest { self.new ≡ record self.old { room = [] } }
    {
        replace(&mut self.room, Vec::new(alloc))
    }

    /// Reads the next bytes of the file to the front of a room, as many as come at once, and answers how many; none at the end of
    /// the file.
    pub fn next<H: Host>(&self, host: &mut H, room: &mut [u8]) -> Result<usize, Failed>
        requires open { self.now.file < (H.outside host.old).opens }
        requires some { 0 < length room.old }
        ensures next { NextPiece (H.outside host.old) (H.outside host.new) self.now.file room.new result }
        ensures opens { (H.outside host.new).opens ≡ (H.outside host.old).opens }
    {
        host.read(self.file, room)
    }
}
