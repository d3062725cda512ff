//! The law on the words among the tokens of a text.

ghost use Rattle.ipdl_lex.specs.Laws.{WordsHold};

/// The law of words: the text of each word among the tokens of a text is a word, and the place of
/// each token is in the text's file.
pub fn words_hold()
    ensures { WordsHold }
{}
