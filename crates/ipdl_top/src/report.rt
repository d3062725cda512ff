//! The text of a report.
ghost use Rattle.std.specs.Prelude.{◌≡◌, ◌++◌, [], IfOk, OnOk, slice_get, unwrap_or};
ghost use Rattle.ipdl_top.specs.Report.{finding_line, report_text};

use ipdl_base::{Finding, Name, Report};
use std::alloc::{AllocError, Global};

/// Returns the name of the file of this number, or nothing if there is no such file.
fn name_of(names: &[Name], number: u32) -> &[u8]
    ensures { result.now ≡ unwrap_or (slice_get names.now number) [] }
{
    match names.get(number as usize) {
        Some(name) => name.as_slice(),
        None => &[],
    }
}

/// Appends the line of a finding in files of these names.
fn push_finding(
    alloc: Global,
    text: &mut Vec<u8>,
    names: &[Name],
    finding: &Finding,
) -> Result<(), AllocError>
    ensures { OnOk result (text.new.items ≡ text.old.items ++ finding_line names.now finding.now) }
{
    let line = finding.place.line;
    let column = finding.place.column;
    let rule = finding.rule;
    let printed = format!(in alloc; ":{line}:{column}: {rule}\n")?;
    text.extend_from_slice(name_of(names, finding.place.file))?;
    text.extend_from_slice(printed.as_bytes())
}

/// Returns the text of a report. Fails only if memory runs out.
pub fn text_of_report(alloc: Global, report: &Report) -> Result<Vec<u8>, AllocError>
    ensures { IfOk result (λ text. text.items ≡ report_text report.now.names report.now.findings) }
{
    let names = report.names.as_slice();
    let mut text = Vec::new(alloc);
    for finding in report.findings.as_slice() {
        push_finding(alloc, &mut text, names, finding)?;
    }
    Ok(text)
}
