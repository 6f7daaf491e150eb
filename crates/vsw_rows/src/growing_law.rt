//! What holds of rows while a port's history grows.

ghost use Rattle.vsw_rows.specs.GrowingLaw.{EntriesLeave, EntryLeaves};

/// An entry that shakes no row leaves every good row good, and so do many of them, one after the other.
pub fn growing_laws()
    ensures entry { EntryLeaves }
    ensures entries { EntriesLeave }
{}
