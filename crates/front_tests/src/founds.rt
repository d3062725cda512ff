//! Looks names up for tests, and shows what they find as text.

use super::given::{name, note};
use name_table::{DeclId, Found, Names};
use std::alloc::{AllocError, Global};
use std::test::Fail;

/// Returns what a name finds in a file. An empty argument means no argument.
pub fn find(
    alloc: Global,
    names: &Names<'_>,
    file: u32,
    text: &str,
    argument: &str,
) -> Result<Found, AllocError> {
    let text = name(alloc, text)?;
    if argument.is_empty() {
        return Ok(names.find(file, &text, None));
    }
    let argument = name(alloc, argument)?;
    Ok(names.find(file, &text, Some(&argument)))
}

/// Appends a declaration as text.
fn push_declaration(declaration: DeclId, out: &mut String) -> Result<(), AllocError> {
    match declaration {
        DeclId::Builtin(builtin) => {
            out.push_str(str::from_utf8(builtin.name()).unwrap_or("no text"))
        }
        DeclId::Using(file, place) => write!(out, "using {file} {place}"),
        DeclId::Struct(file, place) => write!(out, "struct {file} {place}"),
        DeclId::Union(file, place) => write!(out, "union {file} {place}"),
        DeclId::Protocol(file) => write!(out, "protocol {file}"),
        DeclId::Endpoint(file, managed) => write!(out, "endpoint {file} {managed}"),
    }
}

/// Returns what is found as text.
pub fn show_found(alloc: Global, found: Found) -> Result<String, AllocError> {
    let mut shown = String::new(alloc);
    match found {
        Found::None => shown.push_str("none")?,
        Found::One(declaration) => push_declaration(declaration, &mut shown)?,
        Found::Many(one, other) => {
            push_declaration(one, &mut shown)?;
            shown.push_str(" and ")?;
            push_declaration(other, &mut shown)?;
        }
    }
    Ok(shown)
}

/// Records the row of a name that finds anything but what the row expects. A row has the file that
/// looks the name up, the name, its argument, if it has one, and after `=>` the expected result:
/// one declaration, two, or `many` for any two that differ.
fn check(alloc: Global, names: &Names<'_>, row: &str, wrong: &mut String) -> Result<(), Fail> {
    let (asked, wanted) = row.split_once(" => ").ok_or("a row without its answer")?;
    let (file, rest) = asked.split_once(" ").ok_or("a row without its name")?;
    let (text, argument) = rest.split_once(" ").unwrap_or((rest, ""));
    let found = show_found(
        alloc,
        find(alloc, names, file.parse::<u32>()?, text, argument)?,
    )?;
    Ok(note(row, as_wanted(found.as_str(), wanted), wanted, wrong)?)
}

/// Returns what is found, or `many` if the row expects just that of several.
fn as_wanted<'t>(found: &'t str, wanted: &'t str) -> &'t str {
    match found.split_once(" and ") {
        Some((one, other)) if wanted == "many" && one != other => wanted,
        _ => found,
    }
}

/// Returns the rows of a table whose names find anything but what they expect. A row that begins
/// with `#` is a comment.
pub fn wrong_lookups(alloc: Global, names: &Names<'_>, table: &str) -> Result<String, Fail> {
    let mut wrong = String::new(alloc);
    for row in table.split('\n') {
        if !row.starts_with("#") {
            check(alloc, names, row, &mut wrong)?;
        }
    }
    Ok(wrong)
}

/// Does the same as `check` for a name after `manager` or `manages`.
fn check_protocol(
    alloc: Global,
    names: &Names<'_>,
    row: &str,
    wrong: &mut String,
) -> Result<(), Fail> {
    let (asked, wanted) = row.split_once(" => ").ok_or("a row without its answer")?;
    let (file, text) = asked.split_once(" ").ok_or("a row without its name")?;
    let found = names.find_protocol(file.parse::<u32>()?, &name(alloc, text)?);
    Ok(note(row, show_found(alloc, found)?.as_str(), wanted, wrong)?)
}

/// Returns the rows of a table of names after `manager` or `manages` that find anything but what
/// they expect.
pub fn wrong_protocols(alloc: Global, names: &Names<'_>, table: &str) -> Result<String, Fail> {
    let mut wrong = String::new(alloc);
    for row in table.split('\n') {
        check_protocol(alloc, names, row, &mut wrong)?;
    }
    Ok(wrong)
}
