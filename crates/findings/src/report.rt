//! Sorts findings into a report.

ghost use Rattle.std.specs.List.{Contains};
ghost use Rattle.findings.specs.Report.{IsReport};

use ipdl_base::{Finding, Findings, Items};

/// Returns the report of these findings: each of them once, in the order of file, line, column,
/// letter and number. Takes no memory.
pub fn sort_findings(found: Vec<Finding>) -> Findings
    ensures { IsReport (Contains found.items) result }
{
    let mut found = found;
    found.sort_unstable();
    found.dedup();
    Items::from_vec(found)
}
