//! Laws of the steps of one end, for every schema and every list of moves.
ghost use Rattle.channel_model.specs.StepLaws.{CountsGrow, EffectsFollowEvents, EventsHaveTheirLines, FirstActorsAreKnown, FirstEndsFit, FirstStates, FittingEndsStay, KnownActorsStay, NextNumberIsFree, NumbersInEveryRun, NumbersStay, StatesStay, StepsAreBounded, StepsAreMadeOfParts};

/// The law of parts: every step is made of parts. A delivery is a single part; any other step is a first part
/// and the parts that follow it.
pub fn steps_are_made_of_parts()
    ensures { StepsAreMadeOfParts }
{}

/// The law of an event's lines: an event prints its own line and then those of its effects, all on the end's
/// side.
pub fn events_have_their_lines()
    ensures { EventsHaveTheirLines }
{}

/// The law of effects: each effect follows an event of its side, or another effect of that event.
pub fn effects_follow_events()
    ensures { EffectsFollowEvents }
{}

/// The law of first actors: at the beginning an end has the top actor alone, and its actors are known.
pub fn first_actors_are_known()
    ensures { FirstActorsAreKnown }
{}

/// The law of known actors: every step keeps the living actors a tree with ids that are taken, and keeps the
/// new ids that have arrived free, if the end refuses no packet that is delivered.
pub fn known_actors_stay()
    ensures { KnownActorsStay }
{}

/// The law of first states: at the beginning an end is as its state requires.
pub fn first_states()
    ensures { FirstStates }
{}

/// The law of states: after every step all that an end keeps is as its state requires, if its actors are
/// known.
pub fn states_stay()
    ensures { StatesStay }
{}

/// The law of numbers: after every step each promise has the number of a request that was sent, and no two
/// promises share one.
pub fn numbers_stay()
    ensures { NumbersStay }
{}

/// The law of the next number: no promise has the number of the next request.
pub fn next_number_is_free()
    ensures { NextNumberIsFree }
{}

/// The law of numbers in runs: at both ends of every run promises are numbered.
pub fn numbers_in_every_run()
    ensures { NumbersInEveryRun }
{}

/// The law of first ends: at the beginning an end fits the schema.
pub fn first_ends_fit()
    ensures { FirstEndsFit }
{}

/// The law of fitting ends: what an end keeps and sends fits a sound schema, as long as it has sent at most
/// 2^28 requests and each packet that is delivered to it fits and is not refused.
pub fn fitting_ends_stay()
    ensures { FittingEndsStay }
{}

/// The law of counts: every step adds at most one to the number of requests that were sent, and to the number
/// delivered.
pub fn counts_grow()
    ensures { CountsGrow }
{}

/// The law of bounds: every step prints at most five lines more than the number of things that it settles,
/// and adds at most two packets, if the actors of the end are known.
pub fn steps_are_bounded()
    ensures { StepsAreBounded }
{}
