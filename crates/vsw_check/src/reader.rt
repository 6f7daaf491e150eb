//! A reader of lines. A line is one only if it is printed as it stands.

ghost use Rattle.std.specs.Prelude.{◌≡◌, ◌++◌, ◌∷◌, [], IfOk, bytes_eq, option_map};
ghost use Rattle.vsw_report.specs.Print.{line_text};
ghost use Rattle.vsw_report.specs.Words.{line_in, text_of};
ghost use Rattle.vsw_report.specs.declared.told.By.TheVariants.{Worker};
ghost use Rattle.vsw_report.specs.declared.told.What.TheVariants as what;
ghost use Rattle.vsw_check.specs.Private.Built.{line_of};

use crate::line::read_words;
use crate::said::{At, Said};
use std::alloc::Global;
use vsw_base::{Fate, NoMemory};
use vsw_report::{Page, loose_part, port_line, round_line};

/// Whether a text is this line with its line feed.
#[tactic(auto, using(crate::proofs::Same::same_line, crate::proofs::Same::other_line, crate::proofs::Same::short_line))]
fn is_line(text: &[u8], line: &[u8]) -> bool
    ensures { result ≡ bytes_eq text.now (line.now ++ 10 ∷ []) }
{
    if text.len() <= line.len() {
        return false;
    }
    let (front, end) = text.split_at(line.len());
    if front == line {
        end == b"\n".as_slice()
    } else {
        false
    }
}

/// Reads lines, one after the other. Its rooms hold the text of one line, and live on.
#[derive(Drop)]
pub struct Reader {
    page: Page,
    text: Vec<u8>,
}

impl Reader {
    pub fn new(alloc: Global) -> Reader {
        Reader {
            page: Page::new(alloc),
            text: Vec::new(alloc),
        }
    }

    /// Whether the line is printed of this packet, on an empty page.
    fn is_packet_line(
        &mut self,
        worker: u32,
        at: At,
        fate: &Fate,
        bytes: &[u8],
        line: &[u8],
    ) -> Result<bool, NoMemory>
        requires { self.old.page ≡ [] }
        ensures { IfOk result (λ is. is ≡ bytes_eq (line_text (record { by = Worker worker; item = at.item; entry = at.entry; count = at.count; what = what.Fate fate.now bytes.now })) (line.now ++ 10 ∷ [])) }
    {
        self.page
            .packet_line(worker, at.item, at.entry, at.count, fate, bytes)?;
        Ok(is_line(self.page.as_slice(), line))
    }

    /// Whether the line is printed of what it says.
    fn is_printed(&mut self, said: &Said, line: &[u8]) -> Result<bool, NoMemory>
        ensures { IfOk result (λ is. is ≡ bytes_eq (text_of (line_of said.now)) (line.now ++ 10 ∷ [])) }
    {
        self.text.clear();
        self.page.clear();
        match said {
            Said::Round(first) => {
                round_line(&mut self.text, *first)?;
                Ok(is_line(&self.text, line))
            }
            Said::Port {
                port,
                before,
                after,
            } => {
                port_line(&mut self.text, *port, *before, *after)?;
                Ok(is_line(&self.text, line))
            }
            Said::Packet {
                worker,
                at,
                fate,
                bytes,
            } => self.is_packet_line(*worker, *at, fate, bytes.as_slice(), line),
            Said::Command {
                controller,
                at,
                reply,
            } => {
                self.page
                    .reply_line(*controller, at.item, at.entry, at.count, *reply)?;
                Ok(is_line(self.page.as_slice(), line))
            }
            Said::LooseBegins => Ok(is_line(b"loose\n", line)),
            Said::Loose(loose) => {
                loose_part(&mut self.text, &[*loose])?;
                Ok(is_line(&self.text[6..], line))
            }
        }
    }

    /// What a line says, none where it isn't one. `line` is without its line feed.
    pub fn read(&mut self, alloc: Global, line: &[u8]) -> Result<Option<Said>, NoMemory>
        ensures { IfOk result (λ o. option_map line_of o ≡ line_in line.now) }
    {
        let Some(said) = read_words(alloc, line)? else {
            return Ok(None);
        };
        if self.is_printed(&said, line)? {
            Ok(Some(said))
        } else {
            Ok(None)
        }
    }
}
