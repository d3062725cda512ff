//! Tests of the text of a sync list.

use super::checks::{check, cut};
use super::sync_rows::SYNC_ROWS;
use std::alloc::Global;
use std::test::Fail;
use sync_list::{ListFault, Section, one_list, read_list};

/// Appends a section as a line: its number, its names, and whether it is described.
fn push_section(out: &mut String, section: &Section) -> Result<(), Fail> {
    let line = section.line;
    let protocol = str::from_utf8(section.protocol.as_slice())?;
    let message = str::from_utf8(section.message.as_slice())?;
    let described = if section.described {
        "described"
    } else {
        "empty"
    };
    Ok(writeln!(out, "{line} {protocol} {message} {described}")?)
}

fn sections_text(alloc: Global, sections: &[Section]) -> Result<String, Fail> {
    let mut out = String::new(alloc);
    for section in sections {
        push_section(&mut out, section)?;
    }
    Ok(out)
}

/// Returns the sections of a text, each as a line with its number, its names and whether it is
/// described, or the text's first bad line.
fn shown(alloc: Global, text: &str) -> Result<String, Fail> {
    if text.len() > 1_048_576 {
        return Err("too long".into());
    }
    match read_list(alloc, text.as_bytes()) {
        Ok(list) => sections_text(alloc, list.as_slice()),
        Err(ListFault::Line(line)) => Ok(format!(in alloc; "line {line}\n")?),
        Err(ListFault::NoMemory) => Err("no memory".into()),
    }
}

#[test]
fn texts(rt: HostRuntime) -> Result<(), Fail> {
    one_list();
    for row in SYNC_ROWS.split("====\n") {
        let (text, wanted) = cut(row, "\n---\n");
        let found = shown(rt.alloc(), text)?;
        check(&rt, text, found.as_str(), wanted);
    }
    Ok(())
}
