//! Laws of the report of what may interrupt a wait.
ghost use Rattle.schema_laws.specs.Waits.{OneWaitReport, WaitsAlike};

/// The law of waits: schemas that are the same except for where their boxes are have the same report of what
/// may interrupt a wait.
pub fn waits_alike()
    ensures { WaitsAlike }
{}

/// The law of the one report: a schema has one report of what may interrupt a wait under a top protocol.
pub fn one_wait_report()
    ensures { OneWaitReport }
{}
