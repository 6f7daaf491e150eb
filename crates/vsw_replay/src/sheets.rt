//! Putting the text of a round.

ghost use Rattle.std.specs.List.{concat};
ghost use Rattle.vsw_host.specs.Outside.{DoesPut};
ghost use Rattle.vsw_report.specs.Whole.{whole_text};

use vsw_host::{Failed, Host};
use vsw_report::{RoundText, Sheets};

/// Puts sheet after sheet, up to the first that fails.
fn put_sheets<H: Host>(host: &mut H, sheets: &Sheets) -> Result<(), Failed>
    ensures { DoesPut (H.outside host.old) (H.outside host.new) (concat sheets.now) result }
{
    for place in 0..sheets.len() {
        match host.put(sheets.text(place)) {
            Ok(()) => {}
            Err(e) => return Err(e),
        }
    }
    Ok(())
}

/// Puts a text, piece by piece. Where that fails, a front of it was put.
pub fn put_text<H: Host>(host: &mut H, text: &RoundText) -> Result<(), Failed>
    ensures { DoesPut (H.outside host.old) (H.outside host.new) (whole_text text.now) result }
{
    match put_sheets(host, &text.sheets) {
        Ok(()) => host.put(text.end.as_slice()),
        Err(e) => Err(e),
    }
}
