//! What holds of every half run, and of turns.
ghost use Rattle.relay_runs.specs.Laws.{MarksComeLast, TurnsAreRelays};

/// The law of marks: what is delivered to an end is what comes to it, but for the last, which may be
/// the mark of a death in place of a packet that the end refuses.
pub fn marks_come_last()
    ensures { MarksComeLast }
{}

/// The law of turns: the turns of both sides make a relay, with a step for each turn that found something
/// to do.
pub fn turns_are_relays()
    ensures { TurnsAreRelays }
{}
