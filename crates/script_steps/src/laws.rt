//! The laws of what a script does next.

ghost use Rattle.script_steps.specs.Laws.{CaseWorldsAreOne, ChoicesAreCounted, ChoicesAreRead, ChoicesAreRuns, ChoicesGrow, FunctionsPick, QuietDoesNothing, RestIsQuiet, TurnsAreChoices, WordsHaveOneResult};

/// The law of worlds: the lines of a script's history lead to one world (docs/scripts.md).
pub fn case_worlds_are_one()
    ensures { CaseWorldsAreOne }
{}

/// The law of counts: no side has more events than the limit, nor more requests than events.
pub fn choices_are_counted()
    ensures { ChoicesAreCounted }
{}

/// The law of choices: the choices that make a history can be read from its lines.
pub fn choices_are_read()
    ensures { ChoicesAreRead }
{}

/// The law of runs: a history of a script is a legal history.
pub fn choices_are_runs()
    ensures { ChoicesAreRuns }
{}

/// The law of growth: further choices add lines after those of the first.
pub fn choices_grow()
    ensures { ChoicesGrow }
{}

/// The law of the functions: their result is what the word does.
pub fn functions_pick()
    ensures { FunctionsPick }
{}

/// The law of quiet: if nothing is left to do, no turn does anything.
pub fn quiet_does_nothing()
    ensures { QuietDoesNothing }
{}

/// The law of rest: a word that ends at rest leaves nothing to do.
pub fn rest_is_quiet()
    ensures { RestIsQuiet }
{}

/// The law of turns: a turn that leads to another state makes a choice of the run, if that is possible.
pub fn turns_are_choices()
    ensures { TurnsAreChoices }
{}

/// The law of words: each has one result.
pub fn words_have_one_result()
    ensures { WordsHaveOneResult }
{}
