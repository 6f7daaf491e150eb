//! Commands by their packets.

ghost use Rattle.std.specs.Prelude.{◌≡◌, IfSome, length};

use std::alloc::Global;
use vsw_base::Items;
use vsw_commandfile::Line;
use vsw_policy::Command;
use vsw_promise::Schedule;

/// A command that names this packet.
fn line(number: u32, at: u32) -> Line {
    Line {
        number,
        at,
        during: false,
        controller: 1,
        port: 1,
        command: Command::RemoveLayer { layer: 1 },
    }
}

/// A schedule of commands that name these packets, numbered from 1.
fn schedule_of(alloc: Global) -> Option<Schedule>
    ensures { IfSome result (λ s. length s ≡ 5) }
{
    let lines = [line(1, 7), line(2, 3), line(3, 7), line(4, 0), line(5, 3)];
    match Vec::from_array(alloc, lines) {
        Ok(lines) => Schedule::new(alloc, Items::of(lines)).ok(),
        Err(_) => None,
    }
}

/// Whether the commands that name each packet stand at these places; and the number of the last command.
fn found(alloc: Global) -> Option<([bool; 5], u32)> {
    let schedule = schedule_of(alloc)?;
    let places = [
        schedule.places(0) == [3].as_slice(),
        schedule.places(1) == [].as_slice(),
        schedule.places(3) == [1, 4].as_slice(),
        schedule.places(7) == [0, 2].as_slice(),
        schedule.places(u32::MAX) == [].as_slice(),
    ];
    Some((places, schedule.line(4).number))
}

#[test]
fn commands_are_found_by_their_packet_in_file_order(rt: HostRuntime) {
    assert!(&rt; found(rt.alloc()) == Some(([true; 5], 5)));
}

/// The next packet that a command names, from each of these on.
fn next(alloc: Global) -> Option<[Option<u32>; 5]> {
    let schedule = schedule_of(alloc)?;
    Some([
        schedule.next(0),
        schedule.next(1),
        schedule.next(3),
        schedule.next(4),
        schedule.next(8),
    ])
}

const NEXT: [Option<u32>; 5] = [Some(0), Some(3), Some(3), Some(7), None];

#[test]
fn the_next_packet_may_be_the_one_that_is_asked_for(rt: HostRuntime) {
    assert!(&rt; next(rt.alloc()) == Some(NEXT));
}
