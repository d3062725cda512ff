//! Laws that frames, runs, reports of waits and the answers of audits exist.

ghost use Rattle.run_existence.specs.Laws.{BytesHaveFrames, TextsAreDecided, WaitReportsExist, WordsHaveRuns};

/// The law of frames: under a sound schema all bytes are frames, followed by nothing or by a fault.
pub fn bytes_have_frames()
    ensures { BytesHaveFrames }
{}

/// The law of words of turns: for a sound schema and a valid script each word of turns makes a run that ends.
pub fn words_have_runs()
    ensures { WordsHaveRuns }
{}

/// The law of audits: for every text it is decided how many of its first lines a run prints, and whether a
/// run prints all of it.
pub fn texts_are_decided()
    ensures { TextsAreDecided }
{}

/// The law of waits: every sound schema has a report of waits, whichever of its protocols is the top.
pub fn wait_reports_exist()
    ensures { WaitReportsExist }
{}
