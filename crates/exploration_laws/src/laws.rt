//! The laws of the ways of a script.

ghost use Rattle.explorations.specs.Laws.{AlikeWordsAreAsLong, ExplorationsAreOne, FuturesAreAlike, SidesTellWorlds, WaysAreRun, WaysCoverTexts, WaysDiffer};

/// The law of worlds: two runs of a script in which each side has the same lines lead to the same world
/// (docs/explore.md).
pub fn sides_tell_worlds()
    ensures { SidesTellWorlds }
{}

/// The law of futures: where two words lead to states that are alike, the same word leads on from both to
/// points that are alike.
pub fn futures_are_alike()
    ensures { FuturesAreAlike }
{}

/// The law of lengths: words that lead to points that are alike have the same number of letters.
pub fn alike_words_are_as_long()
    ensures { AlikeWordsAreAsLong }
{}

/// The law of covering: where an exploration is whole, each legal text of the script is that of one of its
/// ways (docs/explore.md).
pub fn ways_cover_texts()
    ensures { WaysCoverTexts }
{}

/// The law of runs: the run by the word of a way is that way.
pub fn ways_are_run()
    ensures { WaysAreRun }
{}

/// The law of differences: no two ways of an exploration are alike.
pub fn ways_differ()
    ensures { WaysDiffer }
{}

/// The law of one exploration: for a number of ways no two explorations of a script differ (docs/explore.md).
pub fn explorations_are_one()
    ensures { ExplorationsAreOne }
{}
