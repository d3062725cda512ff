//! The laws of what files have: tokens or a fault, a tree or a syntax place, a reach, findings, a
//! program.

ghost use Rattle.file_existence.specs.Laws.{TextsHaveAnswers, TokensHaveAnswers, FilesHaveAnswers, ReachesExist, FindingsAreListed, CleanFilesHavePrograms, LoadsHaveAnswers};

/// The law of texts: each text has tokens or a first fault.
pub fn texts_have_answers()
    ensures { TextsHaveAnswers }
{}

/// The law of trees: every list of tokens has a tree, or it has no tree and a syntax place.
pub fn tokens_have_answers()
    ensures { TokensHaveAnswers }
{}

/// The law of files: each text has a first fault, or tokens that have a tree, or tokens that have
/// no tree and a syntax place.
pub fn files_have_answers()
    ensures { FilesHaveAnswers }
{}

/// The law of the reach: all files, words that name files, and paths have a reach.
pub fn reaches_exist()
    ensures { ReachesExist }
{}

/// The law of the findings on files: some list has exactly the findings of the rules that the files
/// of some keys break.
pub fn findings_are_listed()
    ensures { FindingsAreListed }
{}

/// The law of clean files: if the files that words reach break no rule, they make a program.
pub fn clean_files_have_programs()
    ensures { CleanFilesHavePrograms }
{}

/// The law of loads: for all files, words that name files, and paths, the files that the words
/// reach break a rule, or make a program.
pub fn loads_have_answers()
    ensures { LoadsHaveAnswers }
{}
