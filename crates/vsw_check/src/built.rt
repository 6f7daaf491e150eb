//! The rounds of the lines that were read so far.

ghost use Rattle.std.specs.Prelude.{◌≡◌, ◌++◌, ◌∷◌, [], OnOk, List, IfOk};
ghost use Rattle.vsw_check.specs.Private.Built.{closed_port, closed_round, put, line_of, finished, IsEmpty};

use crate::place::Place;
use crate::said::{At, Said};
use std::alloc::Global;
use std::mem::replace;
use vsw_base::{Items, NoMemory};
use vsw_report::{By, Loose, PortRound, Round, ToldLine, What};

/// Whole rounds; the ports of the round under way; the lines of its last port; its loose packets.
#[derive(Drop)]
pub struct Built {
    pub rounds: Items<Round>,
    pub first: u32,
    pub ports: Items<PortRound>,
    pub port: u16,
    pub before: u32,
    pub after: u32,
    pub lines: Items<ToldLine>,
    pub loose: Items<Loose>,
}

fn push<T: Drop>(items: &mut Items<T>, value: T) -> Result<(), NoMemory>
    ensures { OnOk result (items.new ≡ items.old ++ value ∷ []) }
{
    match items.push(value) {
        Ok(()) => Ok(()),
        Err(_) => Err(NoMemory),
    }
}

impl Built {
    pub fn new(alloc: Global) -> Built
        ensures { IsEmpty result }
    {
        Built {
            rounds: Items::new(alloc),
            first: 0,
            ports: Items::new(alloc),
            port: 0,
            before: 0,
            after: 0,
            lines: Items::new(alloc),
            loose: Items::new(alloc),
        }
    }

    fn close_port(&mut self, alloc: Global) -> Result<(), NoMemory>
        ensures { OnOk result (self.new ≡ closed_port self.old) }
    {
        let lines = replace(&mut self.lines, Items::new(alloc));
        let port = PortRound {
            port: self.port,
            before: self.before,
            after: self.after,
            lines,
        };
        push(&mut self.ports, port)
    }

    fn close_round(&mut self, alloc: Global) -> Result<(), NoMemory>
        ensures { OnOk result (self.new ≡ closed_round self.old) }
    {
        let ports = replace(&mut self.ports, Items::new(alloc));
        let loose = replace(&mut self.loose, Items::new(alloc));
        let round = Round {
            first: self.first,
            ports,
            loose,
        };
        push(&mut self.rounds, round)
    }

    fn put_line(&mut self, by: By, at: At, what: What) -> Result<(), NoMemory>
        ensures { OnOk result (self.new ≡ record self.old { lines = self.old.lines ++ record { by = by; item = at.item; entry = at.entry; count = at.count; what = what } ∷ [] }) }
    {
        let line = ToldLine {
            by,
            item: at.item,
            entry: at.entry,
            count: at.count,
            what,
        };
        push(&mut self.lines, line)
    }

    /// Takes in the next line.
    pub fn put(&mut self, alloc: Global, place: Place, said: Said) -> Result<(), NoMemory>
        ensures { OnOk result (self.new ≡ put place self.old (line_of said)) }
    {
        match said {
            Said::Round(first) => {
                if let Place::AtLoose = place {
                    self.close_round(alloc)?;
                }
                self.first = first;
            }
            Said::Port {
                port,
                before,
                after,
            } => {
                if let Place::AtLines { .. } = place {
                    self.close_port(alloc)?;
                }
                self.port = port;
                self.before = before;
                self.after = after;
            }
            Said::LooseBegins => {
                if let Place::AtLines { .. } = place {
                    self.close_port(alloc)?;
                }
            }
            Said::Packet {
                worker,
                at,
                fate,
                bytes,
            } => self.put_line(By::Worker(worker), at, What::Fate { fate, bytes })?,
            Said::Command {
                controller,
                at,
                reply,
            } => self.put_line(By::Controller(controller), at, What::Reply(reply))?,
            Said::Loose(loose) => push(&mut self.loose, loose)?,
        }
        Ok(())
    }

    /// All rounds.
    pub fn finish(mut self, alloc: Global, place: Place) -> Result<Items<Round>, NoMemory>
        ensures { IfOk result (λ rounds. rounds ≡ finished place self) }
    {
        if let Place::AtLoose = place {
            self.close_round(alloc)?;
        }
        Ok(self.rounds)
    }
}
