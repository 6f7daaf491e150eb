//! What holds of merged lines.

ghost use Rattle.vsw_history_law.specs.MergingLaw.{CountsStand, CountsStandBeside, MergeTells, MergeTellsBeside, TextsAreByCaller};

/// The lines of calls that were made one after the other can be merged, and merged they are the lines that a report tells of these calls.
pub fn merging_laws()
    ensures counts { CountsStand }
    ensures told { MergeTells }
{}

/// So they are of calls that callers made beside each other. The lines hang on each caller's calls alone.
pub fn beside_laws()
    ensures counts { CountsStandBeside }
    ensures told { MergeTellsBeside }
    ensures texts { TextsAreByCaller }
{}
