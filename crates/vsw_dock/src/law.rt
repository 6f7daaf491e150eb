//! What holds of docks and rows before, between and after rounds.

ghost use Rattle.std.specs.Prelude.{ℕ, List};
ghost use Rattle.vsw_actors.specs.declared.lane.Lane.{Lane};
ghost use Rattle.vsw_actors.specs.Lanes.{AreFit};
ghost use Rattle.vsw_dock.specs.Docks.{is_of, pass_in, permits};
ghost use Rattle.vsw_dock.specs.Laws.{AreDocked, MayMeet, NewRests, RowRests};
ghost use Rattle.vsw_dock.specs.Meeting.{AreHeld, AreOfCaller, RowMeets};
ghost use Rattle.vsw_dock.specs.Opening.{AreOpened, IsNewRow, docks_for};
ghost use Rattle.vsw_dock.specs.Seen.{DockSeen, StationSeen};
ghost use Rattle.vsw_live.specs.Meeting.{HeldSeen};
ghost use Rattle.vsw_live.specs.Ports.{OpenSeen};
ghost use Rattle.vsw_promise.specs.declared.port.Port.{Port};

/// Rows are opened, do their jobs, meet the ports, and then rest, so that the next round may begin.
pub fn laws()
    ensures docked { (count : ℕ) (locals : List ℕ) (made : List Port) (os : List OpenSeen) → AreOpened count made os → AreDocked count locals made os (docks_for locals made os) }
    ensures new { (k : ℕ) (ds : List DockSeen) (ls : List (Lane StationSeen)) → IsNewRow k ds ls → NewRests k ds ls }
    ensures fit { (k more : ℕ) (ds : List DockSeen) (hs : List HeldSeen) (ls : List (Lane StationSeen)) → AreFit pass_in is_of permits k more ds ls → AreHeld ds hs → MayMeet k hs ls }
    ensures rests { (k more : ℕ) (ds : List DockSeen) (hs : List HeldSeen) (ls ms : List (Lane StationSeen)) → AreHeld ds hs → AreOfCaller k ls → RowMeets more hs ls ms → RowRests more k ds hs ls ms }
{}
