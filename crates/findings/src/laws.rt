//! The law of the report.

ghost use Rattle.findings.specs.Laws.{OneReport};

/// The law of the report: two reports with the same findings are the same list, for all rules.
pub fn one_report()
    ensures { OneReport }
{}
