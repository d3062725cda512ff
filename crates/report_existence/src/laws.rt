//! The law that every list of findings has a report.

ghost use Rattle.report_existence.specs.Laws.{FindingsHaveReports};

/// The law of reports: every list of findings has a report, which has the same findings in their
/// order, each once.
pub fn findings_have_reports()
    ensures { FindingsHaveReports }
{}
