//! Every legal history obeys the laws of histories.
ghost use Rattle.channel_laws.specs.AllLaws.{HistoriesObeyAllLaws};
ghost use Rattle.channel_laws.specs.PrefixLaws.{HistoriesObeyPrefix};
ghost use Rattle.channel_laws.specs.WaitLaws.{HistoriesObeyWaits};

/// The law of prefixes in histories: every legal history obeys the law of prefixes.
pub fn histories_obey_prefix()
    ensures { HistoriesObeyPrefix }
{}

/// The law of waits in histories: every legal history obeys the law of waits.
pub fn histories_obey_waits()
    ensures { HistoriesObeyWaits }
{}

/// The five laws as one: every legal history obeys every law.
pub fn histories_obey_all_laws()
    ensures { HistoriesObeyAllLaws }
{}
