//! The laws of the transcripts of a script's runs.

ghost use Rattle.script_transcripts.specs.Laws.{CaseNamesAreWords, CaseTextsTellHistories, CasesEnd, LegalTextsDecide, ReplaysDecide};

/// The law of names: the names in the histories of a valid script are words.
pub fn case_names_are_words()
    ensures { CaseNamesAreWords }
{}

/// The law of texts: two runs of a script that print the same transcript are the same run
/// (docs/transcripts.md).
pub fn case_texts_tell_histories()
    ensures { CaseTextsTellHistories }
{}

/// The law of ends: every run of a valid script can continue until it ends.
pub fn cases_end()
    ensures { CasesEnd }
{}

/// The law of legal texts: a text is legal exactly if the run that follows its lines prints it.
pub fn legal_texts_decide()
    ensures { LegalTextsDecide }
{}

/// The law of replays: a run that follows the lines of a text decides, by what it prints, how many of
/// these lines a run may print.
pub fn replays_decide()
    ensures { ReplaysDecide }
{}
