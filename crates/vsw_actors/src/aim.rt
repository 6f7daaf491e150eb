//! To whom a packet goes, or why it is loose.

ghost use Rattle.std.specs.Prelude.{◌≡◌, ◌≤◌, ◌<◌, ◌%◌, [], IfOk, length};
ghost use Rattle.vsw_header.specs.FlowSum.{flow_sum_of};
ghost use Rattle.vsw_promise.specs.Jobs.{aim_of, loose_after, placed_packet};
ghost use Rattle.vsw_actors.specs.Private.Aims.{IsBrought, IsCarried, loose_in, placed_in};
ghost use Rattle.vsw_pcap.specs.Batch.{lent_record};

use crate::work::Packet;
use vsw_base::{Mac, Stack};
use vsw_frame::{FrameRoom, read_frame};
use vsw_header::{choose_port, spread};
use vsw_pcap::Captured;
use vsw_report::LooseCause;

/// The worker, of so many, that the flow sum of a frame gives. One worker brings all, and no sum is taken.
fn worker_for(workers: u32, stack: &Stack) -> u32
    requires { 1 ≤ workers }
    ensures value { result ≡ flow_sum_of stack.now % workers }
    ensures below { result < workers }
{
    if workers == 1 {
        0
    } else {
        spread(stack, workers)
    }
}

/// Packet `number` as its worker brings it to its port, or why it is loose. Its headers are read into `headers`.
pub(crate) fn aim<'a>(
    workers: u32,
    macs: &[Mac],
    number: u32,
    captured: &Captured<'a>,
    headers: &mut FrameRoom,
) -> Result<Packet<'a>, LooseCause>
    requires some { 1 ≤ workers }
    requires few { workers ≤ 16 }
    requires ports { length macs.now ≤ 16 }
    ensures placed { placed_in result ≡ placed_packet workers number captured.now.moment [] (aim_of macs.now (lent_record captured.now)) }
    ensures loose { loose_in number result ≡ loose_after number (aim_of macs.now (lent_record captured.now)) }
    ensures fit { IfOk result (λ packet. IsCarried (length macs.now) packet) }
    ensures brought { IfOk result (IsBrought workers number captured.now) }
{
    if captured.bytes.len() < captured.original as usize {
        return Err(LooseCause::Snapped);
    }
    let read = read_frame(captured.bytes, headers);
    match &read {
        Err(fault) => Err(LooseCause::Malformed(*fault)),
        Ok(frame) => match choose_port(macs, frame.stack()) {
            None => Err(LooseCause::NoPort),
            Some(place) => Ok(Packet {
                worker: worker_for(workers, frame.stack()),
                number,
                place,
                micros: captured.moment.micros(),
                bytes: captured.bytes,
            }),
        },
    }
}
