//! What holds of rounds and their lines.

ghost use Rattle.vsw_history_law.specs.Cover.{CommandsAreCovered, PacketsAreCovered, RoundsAreSmall};
ghost use Rattle.vsw_history_law.specs.OneLine.{EachHasItsLine};
ghost use Rattle.vsw_history_law.specs.Short.{EntriesAreJobs, HistoriesAreShort};
ghost use Rattle.vsw_history_law.specs.Law.{EachEntryIsTold, LinesAreCalls, NoOtherLines, OneLineEach, OneValue, OthersApart, RepliesAlone, RunsLegally, RunsRepliesAlone};

/// Each packet of a trace is in one round, and at each command's packet one round begins. No round has more than 1,024 packets.
pub fn cover_laws()
    ensures packets { PacketsAreCovered }
    ensures commands { CommandsAreCovered }
    ensures few { RoundsAreSmall }
{}

/// Each packet has one line where it goes, at its port or among the loose packets. No port has two, and where none is handed on it has no other.
pub fn line_laws()
    ensures one { EachHasItsLine }
{}

/// A port has no more entries than jobs, so none more than there are commands and records where no packet is handed on.
pub fn short_laws()
    ensures entries { EntriesAreJobs }
    ensures short { HistoriesAreShort }
{}

/// The calls of a run are legal at each port, each job is one call, and each line is its call's. Each entry of a history has one
/// line, which names its event.
pub fn report_laws()
    ensures legal { RunsLegally }
    ensures calls { LinesAreCalls }
    ensures lines { OneLineEach }
    ensures no_other { NoOtherLines }
    ensures entries { EachEntryIsTold }
{}

/// The rounds of one worker are one value, where no packet is handed on and memory suffices.
pub fn value_laws()
    ensures rounds { OneValue }
{}

/// Controllers don't notice each other.
pub fn controller_laws()
    ensures replies { RepliesAlone }
    ensures layers { OthersApart }
    ensures told { RunsRepliesAlone }
{}
