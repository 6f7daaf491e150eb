//! What holds of histories and calls.

ghost use Rattle.vsw_port.specs.Sample.{AreMeasured, CallersAre};
ghost use Rattle.vsw_port.specs.Share.{CallsLast, EntriesAreSeen, GoesOn, GoingIsShared, ReadsChangeNothing, SharesAreLegal, SharesJoin, ShortAddsNothing};

/// A call stays one while the history grows, shares join, and the shares of all callers are legal. Calls that are made one after the
/// other at the history's end are all callers' shares.
pub fn call_laws()
    ensures last { CallsLast }
    ensures join { SharesJoin }
    ensures legal { SharesAreLegal }
    ensures seen { EntriesAreSeen }
    ensures reads { ReadsChangeNothing }
    ensures short { ShortAddsNothing }
    ensures goes_on { GoesOn }
    ensures shared { GoingIsShared }
{}

/// Values that were worked out by hand.
pub fn samples()
    ensures callers { CallersAre }
    ensures measured { AreMeasured }
{}
