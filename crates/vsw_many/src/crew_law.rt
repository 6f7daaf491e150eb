//! What holds of jobs in turn, and of a crew's round.

ghost use Rattle.vsw_many.specs.CrewLaw.{BeforeTurns, CrewIsTold, JournalsBegin, JournalsEnd, JournalsJoin, OneCallerTurns, QuietTurns, RowsAreOwn, SplitIsCounted, SplitIsMerged, TurnsBegin, TurnsJoin};

/// Histories that grew stretch by stretch.
pub fn journal_laws()
    ensures begin { JournalsBegin }
    ensures end { JournalsEnd }
    ensures join { JournalsJoin }
{}

/// Jobs of one caller, after which all passes meet the ports, are done in turn, and so are such stretches one after the other.
pub fn turn_laws()
    ensures begin { TurnsBegin }
    ensures join { TurnsJoin }
    ensures one { OneCallerTurns }
    ensures quiet { QuietTurns }
    ensures before { BeforeTurns }
{}

/// Callers whose lines stand in two parts are merged as if each had one list.
pub fn split_laws()
    ensures merged { SplitIsMerged }
    ensures counted { SplitIsCounted }
{}

/// The lines of what two or more workers and the controllers did in a round are, merged, the text of the round.
pub fn crew_laws()
    ensures rows { RowsAreOwn }
    ensures told { CrewIsTold }
{}
