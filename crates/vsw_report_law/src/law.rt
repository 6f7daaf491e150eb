//! What the text of a report fixes.

ghost use Rattle.vsw_report_law.specs.Files.{DoneIsRead, FilesGive, PutIsRead};
ghost use Rattle.vsw_report_law.specs.Law.{OneHistory, OneText, ReportIsRead, RoundsAreProper, TextFixesHistories};

/// The rounds of a run are proper, so they are read back from their text, and their text is a report. Rounds fix the
/// histories, and so does the text.
pub fn laws()
    ensures proper { RoundsAreProper }
    ensures text { OneText }
    ensures read { ReportIsRead }
    ensures history { OneHistory }
    ensures fixes { TextFixesHistories }
{}

/// Files that are read give such a run, so what the program puts of them is a report.
pub fn file_laws()
    ensures given { FilesGive }
    ensures put { PutIsRead }
    ensures done { DoneIsRead }
{}
