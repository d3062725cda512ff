//! The law of bounds on lines and packets.
ghost use Rattle.channel_laws.specs.BoundedRuns.{HistoriesAreBounded};

/// The law of bounds: in every history each end prints at most five lines for each of its events, and one
/// more. It puts at most two packets on its link for each event.
pub fn histories_are_bounded()
    ensures { HistoriesAreBounded }
{}
