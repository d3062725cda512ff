//! Each law holds of readable lines exactly where its statement does.
ghost use Rattle.law_statements.specs.Laws.{DecidesChain, DecidesFallen, DecidesLiving, DecidesPrefix, DecidesReadable, DecidesSettled, DecidesWaits, LawsWantReadable};

/// The law Prefix holds of readable lines exactly where its statement does.
pub fn decides_prefix()
    ensures { DecidesPrefix }
{}

/// The law Living holds of readable lines exactly where its statement does.
pub fn decides_living()
    ensures { DecidesLiving }
{}

/// The law Settled holds of readable lines exactly where its statement does.
pub fn decides_settled()
    ensures { DecidesSettled }
{}

/// The law Fallen holds of readable lines exactly where its statement does.
pub fn decides_fallen()
    ensures { DecidesFallen }
{}

/// The law Waits holds of readable lines exactly where its statement does.
pub fn decides_waits()
    ensures { DecidesWaits }
{}

/// The test of readable lines decides what readable lines are.
pub fn decides_readable()
    ensures { DecidesReadable }
{}

/// The chain after readable lines is the list of their calls that wait.
pub fn decides_chain()
    ensures { DecidesChain }
{}

/// No law holds of lines that cannot be read.
pub fn laws_want_readable_lines()
    ensures { LawsWantReadable }
{}
