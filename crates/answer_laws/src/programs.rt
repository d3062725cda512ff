//! The laws of programs that are the same up to where the boxes of their trees lie.

ghost use Rattle.answer_laws.specs.Programs.{BreakAlike, AreListedAlike, HaveSchemasAlike};

/// The law of rules: programs that are the same up to where the boxes of their trees lie break the
/// same rules on types, managers and messages at the same places.
pub fn break_alike()
    ensures { BreakAlike }
{}

/// The law of sync lists: such programs break the same rules of a sync list at the same places.
pub fn listed_alike()
    ensures { AreListedAlike }
{}

/// The law of schemas: such programs have the same schemas.
pub fn schemas_alike()
    ensures { HaveSchemasAlike }
{}
