//! The law that each text has an answer as a sync list.

ghost use Rattle.list_existence.specs.Laws.{ListsHaveAnswers};

/// The law of sync lists: each text spells sections, or has a first line that is not of the format.
pub fn lists_have_answers()
    ensures { ListsHaveAnswers }
{}
