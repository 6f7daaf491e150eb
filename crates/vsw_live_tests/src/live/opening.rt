//! A port is opened, and its passes are given permits.

ghost use Rattle.std.specs.Prelude.{IfSome};
ghost use Rattle.vsw_live.specs.Ports.{AreNewPasses, IsNewPass};
ghost use Rattle.vsw_live_tests.specs.Trials.{Holds, IsOpened};

use std::alloc::Global;
use std::sync::Wait;
use vsw_flows::PortStory;
use vsw_live::{LivePort, Naming, OpenPort};
use vsw_policy::Policy;
use vsw_table::Pass;

/// How many entries each pass may make.
pub const PERMITS: u32 = 10_000;

/// A port of controllers 1 and 2, at first without layers, with 64 rows and passes for 16 workers and both controllers.
pub fn open(alloc: Global) -> Option<OpenPort>
    ensures { IfSome result IsOpened }
{
    let Ok(policy) = Policy::new(alloc, &[1, 2]) else {
        return None;
    };
    match OpenPort::open(alloc, policy, 64, 18) {
        Ok(port) => Some(port),
        Err(_) => None,
    }
}

/// Takes the pass of this number out, and those behind it.
fn take_pass<J: Naming>(
    port: &LivePort<J>,
    passes: &mut Vec<Pass<PortStory>>,
    number: u32,
) -> Option<Pass<PortStory>>
    requires new { AreNewPasses port.now.looking 0 passes.old.items }
    ensures pass { IfSome result (IsNewPass port.now.looking number) }
    ensures new { AreNewPasses port.now.looking 0 passes.new.items }
{
    let _ = port;
    if passes.len() <= number as usize {
        return None;
    }
    let pass = passes.remove(number as usize);
    passes.truncate(number as usize);
    Some(pass)
}

/// Permits for a new pass.
fn grant<J: Naming, R: Wait>(
    rt: &R,
    port: &LivePort<J>,
    pass: Pass<PortStory>,
    number: u32,
) -> Option<Pass<PortStory>>
    requires new { IsNewPass port.now.looking number pass }
    ensures pass { IfSome result (Holds port.now.looking number 10000) }
{
    let mut given = pass;
    match port.grant(rt, &mut given, PERMITS) {
        Ok(()) => Some(given),
        Err(_) => None,
    }
}

/// The pass of this number, with permits. Those behind it are gone.
pub fn pass_of<J: Naming, R: Wait>(
    rt: &R,
    port: &LivePort<J>,
    passes: &mut Vec<Pass<PortStory>>,
    number: u32,
) -> Option<Pass<PortStory>>
    requires new { AreNewPasses port.now.looking 0 passes.old.items }
    ensures pass { IfSome result (Holds port.now.looking number 10000) }
    ensures new { AreNewPasses port.now.looking 0 passes.new.items }
{
    match take_pass(port, passes, number) {
        Some(pass) => grant(rt, port, pass, number),
        None => None,
    }
}
