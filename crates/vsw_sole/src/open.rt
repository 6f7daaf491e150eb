//! A port is opened: its passes.

ghost use Rattle.std.specs.Prelude.{◌≡◌, ◌≤◌, ◌++◌, ◌∷◌, [], length, IfOk, OnOk};
ghost use Rattle.vsw_core.specs.Core.{Begins};
ghost use Rattle.vsw_sole.specs.Callers.{IsCaller, Numbered};

use crate::caller::Caller;
use std::alloc::Global;
use vsw_base::NoMemory;
use vsw_flows::PortStory;
use vsw_table::{Lookup, Writer};

/// The same numbers.
pub(crate) fn copied(alloc: Global, numbers: &[u16]) -> Result<Vec<u16>, NoMemory>
    ensures { IfOk result (λ copy. copy.items ≡ numbers.now) }
{
    match Vec::from_slice(alloc, numbers) {
        Ok(copy) => Ok(copy),
        Err(_) => Err(NoMemory),
    }
}

fn push(callers: &mut Vec<Caller>, caller: Caller) -> Result<(), NoMemory>
    ensures { OnOk result (callers.new.items ≡ callers.old.items ++ caller ∷ []) }
{
    match callers.push(caller) {
        Ok(()) => Ok(()),
        Err(_) => Err(NoMemory),
    }
}

/// So many callers, none of which has made an entry or may make one.
pub(crate) fn callers(
    alloc: Global,
    lookup: &Lookup<PortStory>,
    writer: &mut Writer<PortStory>,
    count: usize,
) -> Result<Vec<Caller>, NoMemory>
    requires begins { Begins lookup.now.1 writer.old }
    requires table { writer.old.table ≡ lookup.now.0 }
    requires none { writer.old.view.passes ≡ 0 }
    requires few { count ≤ 24 }
    ensures begins { Begins lookup.now.1 writer.new }
    ensures table { writer.new.table ≡ lookup.now.0 }
    ensures callers { IfOk result (λ callers. Numbered (IsCaller lookup.now [] 0) 0 callers.items) }
    ensures count { IfOk result (λ callers. length callers.items ≡ count) }
{
    let mut callers = Vec::new(alloc);
    for _ in 0..count {
        let caller = Caller {
            pass: writer.pass(lookup),
            seen: 0,
            made: 0,
            permits: 0,
        };
        push(&mut callers, caller)?;
    }
    Ok(callers)
}
