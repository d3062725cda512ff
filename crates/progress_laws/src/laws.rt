//! Laws of rest: what happens by itself comes to an end, and what is left then.
ghost use Rattle.progress_laws.specs.Acts.{LinesTellActs};
ghost use Rattle.progress_laws.specs.Progress.{HistoriesAreWeighed, MovesAreWeighed, WorldsComeToRest};
ghost use Rattle.progress_laws.specs.Promises.{PromisesAreUnderWay, StillPromisesAreKept};
ghost use Rattle.progress_laws.specs.Rest.{StillWorldsAreEmpty, StillWorldsRest};

/// The law of acts: the lines of an event show whether it is an act or happens by itself.
pub fn lines_tell_acts()
    ensures { LinesTellActs }
{}

/// The law of weights: what happens by itself lowers the weight of a world. No move adds more than eight to
/// the weight, or more than six to the full weight.
pub fn moves_are_weighed()
    ensures { MovesAreWeighed }
{}

/// The law of accounts: in every history the number of events that happen by themselves is at most six for
/// each act.
pub fn histories_are_weighed()
    ensures { HistoriesAreWeighed }
{}

/// The law of rest: what happens by itself comes to an end, in whatever order it happens, and then no end
/// waits.
pub fn worlds_come_to_rest()
    ensures { WorldsComeToRest }
{}

/// The law of empty worlds: in a still world nothing is left that could happen by itself, and the world
/// weighs nothing.
pub fn still_worlds_are_empty()
    ensures { StillWorldsAreEmpty }
{}

/// The law of still worlds: in a still world both ends are open and nothing is on a link, or both have ended.
pub fn still_worlds_rest()
    ensures { StillWorldsRest }
{}

/// The law of promises: while both ends are open, the answer to each pending promise can still come.
pub fn promises_are_under_way()
    ensures { PromisesAreUnderWay }
{}

/// The law of still promises: where nothing can happen by itself, the other end keeps the resolver of each
/// pending promise of an open end under exactly one name.
pub fn still_promises_are_kept()
    ensures { StillPromisesAreKept }
{}
