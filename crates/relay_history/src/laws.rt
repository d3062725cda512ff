//! What holds of every relay: it is one history, and has one result.
ghost use Rattle.relay_history.specs.SidesAlone.{SidesObeyAlone, SidesRunAlone};
ghost use Rattle.relay_history.specs.Laws.{FinishedRelaysWaitForNothing, RelaysAreHistories, RelaysComeInOrder, RelaysHaveOneResult, RelaysRunOrStart, StampedRelaysRun, TurnsHaveOneHistory};

/// The law of histories: a relay is one history of its script. Its halves are the lines of that history by
/// side, and each packet that came was delivered, with no mark in its place.
pub fn relays_are_histories()
    ensures { RelaysAreHistories }
{}

/// The law of order: both halves of a relay are half runs, and what came to each is a prefix of what the
/// other has sent.
pub fn relays_come_in_order()
    ensures { RelaysComeInOrder }
{}

/// The law of results: two relays of one setting agree at each side, one perhaps further, and all that
/// finish are the same.
pub fn relays_have_one_result()
    ensures { RelaysHaveOneResult }
{}

/// The law of histories, for turns: by side they give the lines of one history.
pub fn turns_have_one_history()
    ensures { TurnsHaveOneHistory }
{}

/// The law of rest: where a relay is finished, no end waits for an answer.
pub fn finished_relays_wait_for_nothing()
    ensures { FinishedRelaysWaitForNothing }
{}

/// The law of starts: of two half runs, where what came to each is a prefix of what the other has sent,
/// there is a relay exactly where they have not started each other.
pub fn relays_run_or_start()
    ensures { RelaysRunOrStart }
{}

/// The law of stamps: two halves are a relay where each packet that one sends has a number above those
/// of all packets that came to it before.
pub fn stamped_relays_run()
    ensures { StampedRelaysRun }
{}

/// The law of sides: each side of a run of a script is a run of one end by itself, by the packets that were
/// delivered to it.
pub fn sides_run_alone()
    ensures { SidesRunAlone }
{}

/// The law of one end, for runs: each side of a history of a script obeys it.
pub fn sides_obey_alone()
    ensures { SidesObeyAlone }
{}
