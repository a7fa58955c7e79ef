//! Proves what follows from the rounds of a fleet's loop.
ghost use Rattle.meter_fleet.specs.Runs.{RunsLawfully, LosesNothing};

/// Proves that the rounds of `serve_fleet` are calls of a fleet, one after the other, so that at
/// each moment of a run each open connection has been written the frames of its session, no other
/// connection has this session, at most eight are open to one meter, each meter has the history of
/// its own connections and events, and a meter that no call is for has not been made. Where memory
/// runs out in a turn of a connection, it is closed in the same round.
pub fn lawful_rounds()
    ensures runs { RunsLawfully }
    ensures between { LosesNothing }
{}
