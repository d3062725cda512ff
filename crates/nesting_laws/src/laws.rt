//! Laws of two ends that call each other, on sync calls alone.
ghost use Rattle.nesting_laws.specs.Laws.{AloneStays, LinksTellOfEnds, NestingStays, NobodyIsStuck, OneGivesWay, RepliesAreForTop};

/// The law of nesting: every step of one of two open ends keeps them nested.
pub fn nesting_stays()
    ensures { NestingStays }
{}

/// The law of an end that is left alone: when one end closes or dies, the other is alone, and every step
/// keeps it alone.
pub fn alone_stays()
    ensures { AloneStays }
{}

/// The law of replies: each reply that is first on a link is for the wait on top there.
pub fn replies_are_for_top()
    ensures { RepliesAreForTop }
{}

/// The law of progress: while one of two open ends waits, something can happen by itself, and at an end that
/// is alone it always can.
pub fn nobody_is_stuck()
    ensures { NobodyIsStuck }
{}

/// The law of links: what a link carries shows whether the end that sends is open.
pub fn links_tell_of_ends()
    ensures { LinksTellOfEnds }
{}

/// The law of two waits: where both ends wait, one of them does not defer the other's call.
pub fn one_gives_way()
    ensures { OneGivesWay }
{}
