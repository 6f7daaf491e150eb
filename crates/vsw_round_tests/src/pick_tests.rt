//! Picks, and the jobs that they are made.

ghost use Rattle.std.specs.Prelude.{◌≡◌, IfSome, length};
ghost use Rattle.vsw_actors.specs.Picks.{ArePicks};

use std::alloc::Global;
use vsw_actors::{Pick, Placed, Work, deal_picks, jobs_of};
use vsw_base::{Mac, Moment};
use vsw_pcap::Batch;

/// UDP from 10.0.0.5, port 1234, to 10.0.0.9, port 53.
const QUERY: &[u8] = b"\x02\x00\x00\x00\x00\x99\x02\x00\x00\x00\x00\x01\x08\x00\
\x45\x00\x00\x1e\x00\x00\x40\x00\x40\x11\x26\xc2\x0a\x00\x00\x05\x0a\x00\x00\x09\
\x04\xd2\x00\x35\x00\x0a\x7e\x5c\x68\x69";

/// The query, bytes that are no frame, and the query once more.
fn three_packets(alloc: Global) -> Option<Batch>
    ensures { IfSome result (λ packets. length packets ≡ 3) }
{
    let mut packets = Batch::new(alloc);
    packets.push(Moment::of(10), 44, QUERY).ok()?;
    packets.push(Moment::of(20), 4, b"\x02\x00\x00\x00").ok()?;
    packets.push(Moment::of(30), 44, QUERY).ok()?;
    Some(packets)
}

/// The jobs of the first worker, which has the number 0.
fn first_jobs<'a>(
    alloc: Global,
    packets: &'a Batch,
    picks: &[Vec<Pick>],
) -> Option<Vec<Placed<Work<'a>>>>
    requires three { length packets.now ≡ 3 }
    requires fit { ArePicks 2 packets.now picks.now }
{
    let (mine, _) = picks.split_first()?;
    jobs_of(alloc, 0, 1000, packets, mine).ok()
}

/// The place, the worker, the number, the moment and the bytes' count of a packet's job; zeros for another.
fn words_of<'a>(job: &Placed<Work<'a>>) -> [u64; 5] {
    match &job.job {
        Work::Packet(packet) => [
            job.place as u64,
            u64::from(packet.worker),
            u64::from(packet.number),
            packet.micros,
            packet.bytes.len() as u64,
        ],
        Work::Line(_) => [0; 5],
    }
}

/// What the first two jobs of the first of two ports' only worker are, how many there are, and the number of the first loose packet.
fn jobs_told(alloc: Global) -> Option<([u64; 5], [u64; 5], usize, u32)> {
    let packets = three_packets(alloc)?;
    let macs = [Mac::of(0x0200_0000_0001), Mac::of(0x0200_0000_0002)];
    let mut loose = Vec::new(alloc);
    let Ok(picks) = deal_picks(alloc, 1, &macs, 1000, &packets, &mut loose) else {
        return None;
    };
    let jobs = first_jobs(alloc, &packets, &picks)?;
    let first = words_of(jobs.first()?);
    let last = words_of(jobs.last()?);
    Some((first, last, jobs.len(), loose.first()?.packet))
}

#[test]
fn a_pick_becomes_a_job_with_its_number_in_the_trace(rt: HostRuntime) {
    let (first, last, count, loose) = jobs_told(rt.alloc()).expect(&rt, "memory");
    assert_eq!(rt; first, [0, 0, 1000, 10, 44]);
    assert_eq!(rt; last, [0, 0, 1002, 30, 44]);
    assert_eq!(rt; count, 2);
    assert_eq!(rt; loose, 1001);
}
