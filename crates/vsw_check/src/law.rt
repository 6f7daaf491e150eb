//! What holds of the reading of reports.

ghost use Rattle.vsw_check.specs.Law.{EachIsJudged, NoReportIsBad, OneBadLine, OneReport};

/// All bytes are a report or have a bad line, never both, and its rounds or that line are the only ones. So `read_report` answers `Ok` exactly
/// where the bytes are a report, unless memory is wanting.
pub fn laws()
    ensures each { EachIsJudged }
    ensures apart { NoReportIsBad }
    ensures line { OneBadLine }
    ensures rounds { OneReport }
{}
