//! What holds of halves of a run, and of feeds.
ghost use Rattle.world_core.specs.FeedLaws.{FeedTurnsArePossible, FeedsComeToAnEnd};
ghost use Rattle.world_core.specs.Halves.{HalvesFitAfterMore, StoredLinesFollow};

/// The law of halves: what the other side does alone changes nothing of a half.
pub fn halves_fit_after_more()
    ensures { HalvesFitAfterMore }
{}

/// The law of stored lines: after the lines that a half fits, its stored lines are a history of the
/// script.
pub fn stored_lines_follow()
    ensures { StoredLinesFollow }
{}

/// The law of turns: in a feed by a valid script each next step, and each delivery at an open end, is
/// possible.
pub fn feed_turns_are_possible()
    ensures { FeedTurnsArePossible }
{}

/// The law of ends: every list of bytes has a feed.
pub fn feeds_come_to_an_end()
    ensures { FeedsComeToAnEnd }
{}
