//! The packets of a round, dealt to workers.

ghost use Rattle.std.specs.Arc.{arc_value};
ghost use Rattle.std.specs.Prelude.{◌≡◌, ◌≤◌, ◌<◌, ◌+◌, ◌^◌, IfOk, length};
ghost use Rattle.vsw_crew.specs.Shift.{IsPicked};

use std::alloc::Global;
use std::sync::Arc;
use vsw_actors::{Pick, deal_picks};
use vsw_base::NoMemory;
use vsw_harbour::{Harbour, Naming};
use vsw_pcap::Batch;
use vsw_report::Loose;

/// The packets of a round, and which of them each worker carries to which port.
#[derive(Drop)]
pub struct Picked {
    /// The number of the first packet.
    pub(crate) first: u32,
    pub(crate) packets: Arc<Batch>,
    /// By workers.
    pub(crate) picks: Vec<Vec<Pick>>,
    pub(crate) loose: Vec<Loose>,
}

/// Deals these packets, of which the first has this number, to the workers of a harbour.
pub(crate) fn pick_for<'g, J: Naming, G>(
    harbour: &Harbour<'g, J, G>,
    first: u32,
    packets: Arc<Batch>,
) -> Result<Picked, NoMemory>
    requires numbers { first + length (arc_value packets) < 2 ^ 32 }
    ensures { IfOk result (λ p. IsPicked harbour.now first (arc_value packets) p) }
{
    let mut loose = Vec::new(harbour.alloc);
    let picks = deal_picks(
        harbour.alloc,
        harbour.workers,
        harbour.macs.as_slice(),
        first,
        &packets,
        &mut loose,
    )?;
    Ok(Picked {
        first,
        packets,
        picks,
        loose,
    })
}
