//! Drawing the packets of a round.

ghost use Rattle.std.specs.Prelude.{◌≡◌, ◌≤◌, ◌++◌, ◌∷◌, [], IfOk, OnOk, length, take};
ghost use Rattle.vsw_replay.specs.Draws.{Draws, DrawsOne};

use vsw_base::NoMemory;
use vsw_generate::{Made, Workload};
use vsw_pcap::Batch;

/// The most packets of a round.
const ROUND_MOST: usize = 1_024;

/// Bytes of room for a packet.
const ROOM_LEN: usize = 200;

/// Appends a packet that was made, whose bytes stand at the front of the room.
fn push_made(batch: &mut Batch, made: &Made, room: &[u8]) -> Result<(), NoMemory>
    requires { made.now.len ≤ length room.now }
    ensures { OnOk result (batch.new ≡ batch.old ++ record { moment = made.now.moment; original = made.now.len; bytes = take made.now.len room.now } ∷ []) }
{
    batch.push(made.moment, made.len, &room[..made.len as usize])
}

/// Appends the next packet of the workload. Answers whether there was one.
fn draw_one(workload: &mut Workload, batch: &mut Batch) -> Result<bool, NoMemory>
    ensures { IfOk result (λ more. DrawsOne workload.old workload.new batch.old batch.new more) }
{
    let mut room = [0u8; ROOM_LEN];
    match workload.next(&mut room) {
        Some(made) => {
            push_made(batch, &made, &room)?;
            Ok(true)
        }
        None => Ok(false),
    }
}

/// Takes the packets of the next round from the workload: 1,024, or those that are left.
pub(crate) fn draw(workload: &mut Workload, batch: &mut Batch) -> Result<(), NoMemory>
    requires { batch.old ≡ [] }
    ensures { OnOk result (Draws workload.old workload.new batch.new) }
{
    while batch.len() < ROUND_MOST {
        if !draw_one(workload, batch)? {
            return Ok(());
        }
    }
    Ok(())
}
