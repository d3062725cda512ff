//! Laws of lines, wherever the boxes of their values lie.
ghost use Rattle.line_laws.specs.Laws.{LawsSeeNoBox, TextsSeeNoBox};

use value_types::boxes_say_nothing;

/// The law of texts: the text of a history does not depend on where boxes lie
/// (docs/transcripts.md).
pub fn texts_see_no_box()
    ensures { TextsSeeNoBox }
{
    boxes_say_nothing();
}

/// The law of laws: whether lines can be read, and whether a law of histories holds of them, does
/// not depend on where boxes lie (docs/laws.md).
pub fn laws_see_no_box()
    ensures { LawsSeeNoBox }
{}
