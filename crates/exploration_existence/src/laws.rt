//! The law that a script has an exploration.

ghost use Rattle.explorations.specs.Laws.{ExplorationsExist};

/// The law of existence: for a sound schema, a valid script and a number of ways there is an exploration.
pub fn explorations_exist()
    ensures { ExplorationsExist }
{}
