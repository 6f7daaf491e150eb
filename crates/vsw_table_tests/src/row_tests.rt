//! A row is found while it has a stamp, not after that is taken away, and again once it is stored anew; a row in use may give way.
ghost use Rattle.std.specs.Prelude.{◌≡◌, ◌≢◌, ◌<◌, ℕ, Some, length};
ghost use Rattle.vsw_table.specs.Rules.{stamp_at};
ghost use Rattle.vsw_table.specs.Held.{IsRead};

use crate::counted::{Counted, key, row};
use std::alloc::Global;
use vsw_table::{Look, Lookup, Opened, Pass, Writer};

/// The count of a hit that has the row's last word too, else 200 and the count of a miss.
fn found(lookup: &Lookup<Counted>, pass: &mut Pass<Counted>, count: u64) -> u32
    requires { (pass.old.table ≡ lookup.now.0) × (0 < lookup.now.2) × (pass.old.view.opening ≡ Some lookup.now.1) }
    ensures { IsRead pass.old.view pass.new.view × (pass.new.table ≡ pass.old.table) }
{
    let mut body = [0; 57];
    match lookup.look(pass, 0, &key(count), &mut body) {
        Look::Hit { count } => { if body[56] == 6 { count } else { 99 } }
        Look::Miss { count } => 200u32.wrapping_add(count),
    }
}

/// What is found of the row that is good at no entry, with a stamp and without, and then of the row that is good at one and of the first.
fn found_in_turn(
    lookup: &Lookup<Counted>,
    writer: &mut Writer<Counted>,
    pass: &mut Pass<Counted>,
) -> [u32; 4]
    requires table { (writer.old.table ≡ lookup.now.0) × (pass.old.table ≡ lookup.now.0) × (lookup.now.2 ≡ 8) }
    requires opens { (writer.old.view.opening ≡ Some lookup.now.1) × (pass.old.view.opening ≡ Some lookup.now.1) }
    requires permit { (pass.old.view.number ≡ 0) × (0 < pass.old.view.permits) }
    requires entries { length writer.old.view.history ≡ 0 }
{
    writer.put(lookup, 3, &row(0));
    let first = found(lookup, pass, 0);
    writer.shake(lookup, 3);
    let missed = found(lookup, pass, 0);
    writer.stamp(lookup, 3);
    let again = found(lookup, pass, 0);
    writer.put(lookup, 3, &row(0));
    [first, missed, again, found(lookup, pass, 1)]
}

fn tried(alloc: Global) -> Option<[u32; 4]> {
    match Lookup::<Counted>::open(alloc, 8, &()) {
        Ok(Opened { lookup, mut writer }) => {
            let mut pass = writer.pass(&lookup);
            writer.meet(&lookup, &mut pass, 4);
            Some(found_in_turn(&lookup, &mut writer, &mut pass))
        }
        Err(_) => None,
    }
}

#[test]
fn a_row_is_found_while_it_has_a_stamp(rt: HostRuntime) {
    assert!(&rt; tried(rt.alloc()) == Some([0, 200, 0, 200]));
}
