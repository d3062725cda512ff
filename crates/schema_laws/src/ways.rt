//! Explorations do not depend on where boxes are.
ghost use Rattle.schema_laws.specs.Explorations.{ExplorationsAlike};

/// The law of explorations: with settings that are the same, except for where the boxes of their types and
/// of their terms are, a script has the same explorations.
pub fn explorations_alike()
    ensures { ExplorationsAlike }
{}
