//! What holds of every report.

ghost use Rattle.vsw_report.specs.Law.{OneReport, OnlyOfReports, ReadsBack};

/// Rounds whose values fit are read back from the text of their report, so two reports with one text are one.
/// Only the text of a report is read.
pub fn laws()
    ensures back { ReadsBack }
    ensures one { OneReport }
    ensures only { OnlyOfReports }
{}
