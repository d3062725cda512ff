//! What follows for every feed.
ghost use Rattle.feed_runs.specs.Laws.{FeedsAreHalfRuns, FeedsHaveOneResult, FeedsReadFrames};

/// The law of feeds: bytes have one result.
pub fn feeds_have_one_result()
    ensures { FeedsHaveOneResult }
{}

/// The law of reading: the delivered messages are those of the frames that the bytes begin with.
pub fn feeds_read_frames()
    ensures { FeedsReadFrames }
{}

/// The law of halves: a feed is a half run, to which its packets came from the bytes.
pub fn feeds_are_half_runs()
    ensures { FeedsAreHalfRuns }
{}
