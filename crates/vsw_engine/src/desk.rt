//! The rooms in which lines are made, and the text of a batch.

ghost use Rattle.std.specs.Prelude.{◌≡◌, IfOk, length};

use crate::sheet::Sheet;
use std::alloc::Global;
use vsw_base::NoMemory;
use vsw_frame::FrameRoom;
use vsw_offload::AnswerRoom;
use vsw_report::Page;

/// Bytes of the longest outgoing frame.
const OUT_LEN: usize = 65_700;

/// Rooms that live on.
#[derive(Drop)]
pub(crate) struct Desk {
    /// Where the headers of a frame stand.
    pub headers: FrameRoom,
    pub room: AnswerRoom,
    /// Where the outgoing bytes of a frame stand.
    pub out: Vec<u8>,
    pub page: Page,
    pub scratch: Vec<u8>,
    /// The lines of a batch.
    pub text: Sheet,
}

/// Room for the longest outgoing frame.
fn out_room(alloc: Global) -> Result<Vec<u8>, NoMemory>
    ensures { IfOk result (λ out. length out.items ≡ 65700) }
{
    let mut out = Vec::new(alloc);
    match out.resize(OUT_LEN, 0) {
        Ok(()) => Ok(out),
        Err(_) => Err(NoMemory),
    }
}

impl Desk {
    pub fn new(alloc: Global) -> Result<Desk, NoMemory>
        ensures { IfOk result (λ desk. length desk.out.items ≡ 65700) }
    {
        let out = out_room(alloc)?;
        Ok(Desk {
            headers: FrameRoom::new(),
            room: AnswerRoom::new(),
            out,
            page: Page::new(alloc),
            scratch: Vec::new(alloc),
            text: Sheet::new(alloc),
        })
    }
}
