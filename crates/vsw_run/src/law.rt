//! What holds of runs of the program.

ghost use Rattle.vsw_run.specs.Export.{ExportAnswersAsLayers};
ghost use Rattle.vsw_run.specs.Well.{DoneRanWell};
ghost use Rattle.vsw_run.specs.Law.{DoneReadsAll, ExportsAsForwards, OneRun, OneStatus, OneText};
ghost use Rattle.vsw_run.specs.Order.{RoundsAreTold};
ghost use Rattle.vsw_run.specs.Statuses.{StatusNumbers};

/// A run that ends well has read all of its files. The status of a run is one value. With one worker so is its report, where memory
/// suffices.
pub fn program_laws()
    ensures whole { DoneReadsAll }
    ensures text { OneText }
    ensures status { OneStatus }
    ensures run { OneRun }
{}

/// A run over files that ended well put the report of rounds in which each controller is told what its own commands alone would have, each
/// packet has one line, and where rules have no state each packet's fate is that of one worker.
pub fn done_laws()
    ensures well { DoneRanWell }
{}

/// The lines of each port's round stand in the order in which a report is read.
pub fn order_laws()
    ensures told { RoundsAreTold }
{}

/// Rows that are exported at a history answer as the layers do there. A run that exports ends as one does that forwards.
pub fn export_laws()
    ensures layers { ExportAnswersAsLayers }
    ensures ends { ExportsAsForwards }
{}

/// The number with which each status ends the process.
pub fn statuses()
    ensures numbers { StatusNumbers }
{}
