//! Laws of the report of what may interrupt a wait.
ghost use Rattle.wait_laws.specs.Interruptions.{OnlyReportedInterrupt, ReportsAreWhole};
ghost use Rattle.wait_laws.specs.SendableWorlds.{SendableInEveryRun};

/// The law of what can be sent: in every run each actor that lives is of a protocol that can be built, and
/// each request on a stack, on a link, in an outbox or among what has arrived is of a message that can be
/// sent.
pub fn sendable_in_every_run()
    ensures { SendableInEveryRun }
{}

/// The law of interruptions: in every legal history a request that is taken under an unanswered call is an
/// interruption that the schema allows.
pub fn only_reported_interrupt()
    ensures { OnlyReportedInterrupt }
{}

/// The law of reports: a report of interruptions leaves out none that occurs in a legal history.
pub fn reports_are_whole()
    ensures { ReportsAreWhole }
{}
