//! The law of the one answer.

ghost use Rattle.script_laws.specs.Laws.{OneAnswer};

/// The law of the one answer: for a schema and a top protocol, a text has at most one script, up to
/// where boxes lie, or at most one report of broken rules, and never both.
pub fn one_answer()
    ensures { OneAnswer }
{}
