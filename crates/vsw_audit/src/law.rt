//! How a report is decided.

ghost use Rattle.vsw_audit.specs.Audit.{AuditIsComplete, AuditIsSound, ReplayDecides};
ghost use Rattle.vsw_audit.specs.Check.{OneAnswer};
ghost use Rattle.vsw_audit.specs.Order.{ToldIsAsItStands};

/// The rounds of a report are those of a run exactly where they are replayed, one after the other, line by line, from empty histories on. Lines that
/// one look finds in the order of counts stand as they are told.
pub fn laws()
    ensures one { OneAnswer }
    ensures sound { AuditIsSound }
    ensures complete { AuditIsComplete }
    ensures decides { ReplayDecides }
    ensures order { ToldIsAsItStands }
{}
