//! Which rows stay good when a command is obeyed.

ghost use Rattle.vsw_spares.specs.Entry.{EntrySpares};
ghost use Rattle.vsw_spares.specs.Handy.{AddedTells, BetweenTells, FoundTells, GroupSparesAll, OtherDefaultSpares, OtherGroupTells, RemovedTells, UnreachedSpares};
ghost use Rattle.vsw_spares.specs.Law.{CommandSpares, SameTold};

/// Layers that tell a row's looks the same leave it good. A command spares a row where the test of its looks
/// says so.
pub fn laws()
    ensures same { SameTold }
    ensures spares { CommandSpares }
    ensures entry { EntrySpares }
{}

/// Where the test says so.
pub fn handy_laws()
    ensures between { BetweenTells }
    ensures added { AddedTells }
    ensures removed { RemovedTells }
    ensures group { OtherGroupTells }
    ensures all { GroupSparesAll }
    ensures unreached { UnreachedSpares }
    ensures default { OtherDefaultSpares }
    ensures found { FoundTells }
{}
