//! What holds of plain runs.

ghost use Rattle.vsw_history_law.specs.AgreementLaw.{AgreesAlone, AloneIsPlenty, FatesOfRun};

/// The rounds that are worked out for one worker tell of no want of memory. Where no rule is stateful, no command is "during" and no packet
/// is handed on, rounds of any number of workers that tell of none have the same fate and bytes for each packet.
pub fn agreement_laws()
    ensures plenty { AloneIsPlenty }
    ensures fates { FatesOfRun }
    ensures agree { AgreesAlone }
{}
