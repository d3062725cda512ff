//! What a half run obeys by itself, and so each half of a relay, and a feed.
ghost use Rattle.relay_laws.specs.Laws.{FeedsObeyAlone, FeedsRunAlone, HalfRunsRunAlone, RelaysObeyAlone};

/// The law of runs: a half run is a run of one end by itself.
pub fn half_runs_run_alone()
    ensures { HalfRunsRunAlone }
{}

/// The law of one end, for pairs of half runs, and so for relays: what each end settles and continues
/// with results from what the other has sent.
pub fn relays_obey_alone()
    ensures { RelaysObeyAlone }
{}

/// The law of runs, for feeds: a feed is a run of one end by itself.
pub fn feeds_run_alone()
    ensures { FeedsRunAlone }
{}

/// The law of one end, for feeds: what a feed settles and continues with results from what was
/// delivered.
pub fn feeds_obey_alone()
    ensures { FeedsObeyAlone }
{}
