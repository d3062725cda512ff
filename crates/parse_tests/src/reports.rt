//! Tests of reports.

use super::checks::{check, cut};
use findings::{one_report, sort_findings};
use ipdl_base::{Finding, Findings, Place, Rule};
use std::alloc::Global;
use std::test::Fail;

/// Rows: the given findings as `FILE LINE COLUMN RULE`, a line of `---`, and the report. A line of
/// `====` separates rows.
const ROWS: &str = "
---
====
0 2 1 A1
0 1 9 A1
0 2 1 A1
---
0 1 9 A1
0 2 1 A1
====
1 1 1 A1
0 3 3 B21
0 3 3 B2
0 3 3 A2
0 3 2 A4
---
0 3 2 A4
0 3 3 A2
0 3 3 B2
0 3 3 B21
1 1 1 A1
";

fn rule_of(word: &str) -> Rule {
    match word {
        "A1" => Rule::BAD_TOKEN,
        "A2" => Rule::SYNTAX_FAULT,
        "A4" => Rule::MISNAMED_PROTOCOL,
        "B2" => Rule::AMBIGUOUS_TYPE,
        _ => Rule::REPEATED_NAME,
    }
}

fn finding(line: &str) -> Result<Finding, Fail> {
    let (file, rest) = cut(line, " ");
    let (line, rest) = cut(rest, " ");
    let (column, rule) = cut(rest, " ");
    let place = Place {
        file: file.parse::<u32>()?,
        line: line.parse::<u32>()?,
        column: column.parse::<u32>()?,
    };
    let rule = rule_of(rule);
    Ok(Finding { place, rule })
}

/// Returns the findings in the lines of a text. An empty text has no findings.
fn findings(alloc: Global, text: &str) -> Result<Vec<Finding>, Fail> {
    let mut findings = Vec::new(alloc);
    if text.is_empty() {
        return Ok(findings);
    }
    for line in text.split("\n") {
        findings.push(finding(line)?)?;
    }
    Ok(findings)
}

fn shown(alloc: Global, findings: &Findings) -> Result<String, Fail> {
    let mut text = String::new(alloc);
    for finding in findings.as_slice() {
        let Place { file, line, column } = finding.place;
        let letter = char::from(finding.rule.letter);
        let number = finding.rule.number;
        writeln!(text, "{file} {line} {column} {letter}{number}")?;
    }
    Ok(text)
}

#[test]
fn orders(rt: HostRuntime) -> Result<(), Fail> {
    one_report();
    for row in ROWS.split("====\n") {
        let (given, wanted) = cut(row, "\n---\n");
        let report = sort_findings(findings(rt.alloc(), given)?);
        let found = shown(rt.alloc(), &report)?;
        check(&rt, given, found.as_str(), wanted);
    }
    Ok(())
}
