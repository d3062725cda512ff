//! The laws of rest on lines.
ghost use Rattle.rest_statements.specs.Laws.{HistoriesRest, RestFollows};

/// The law of what follows: a list of lines that obeys Prefix and Waits, keeps the order and has the effects
/// that are owed rests with nothing left.
pub fn rest_follows()
    ensures { RestFollows }
{}

/// The law of rest: every legal history rests with nothing left.
pub fn histories_rest()
    ensures { HistoriesRest }
{}
