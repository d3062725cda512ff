//! Scripts, runs, feeds and relays do not depend on where boxes are.
ghost use Rattle.schema_laws.specs.Feeds.{FeedsAlike};
ghost use Rattle.schema_laws.specs.Relays.{RelaysAlike};
ghost use Rattle.schema_laws.specs.Runs.{ChoicesAlike, EventsAlike, PicksAlike, ScriptsAlike, StepsAlike, TextsAlike};

use script_laws::one_answer;

/// The law of alike steps: under schemas that are the same except for where their boxes are, each event does
/// the same at an end, or is possible under neither.
pub fn steps_alike()
    ensures { StepsAlike }
{}

/// The law of alike events: with settings that are the same except for where the boxes of types and terms
/// are, a side does the same as its next own event.
pub fn events_alike()
    ensures { EventsAlike }
{}

/// The law of alike words: with such settings a word of turns makes the same run, with the same ending.
pub fn picks_alike()
    ensures { PicksAlike }
{}

/// The law of alike choices: with such settings choices make the same run, or none; and in each state a side
/// is at the limit with both or neither, and has something to do with both or neither.
pub fn choices_alike()
    ensures { ChoicesAlike }
{}

/// The law of alike feeds: one end does the same with bytes under settings that are the same except for where
/// the boxes of types and terms are.
pub fn feeds_alike()
    ensures { FeedsAlike }
{}

/// The law of alike relays: settings that are the same except for where the boxes of types and terms are have
/// the same relays of both ends, with the same endings.
pub fn relays_alike()
    ensures { RelaysAlike }
{}

/// The law of alike transcripts: under such schemas lines have the same text.
pub fn texts_alike()
    ensures { TextsAlike }
{}

/// The law of alike scripts: under such schemas a text has the same script, except for where the boxes of its
/// terms are, or the same report of broken rules.
pub fn scripts_alike()
    ensures { ScriptsAlike }
{
    one_answer();
}
