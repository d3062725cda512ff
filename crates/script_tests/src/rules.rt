//! Which rules a script breaks, and where.

ghost use Rattle.ipdl_base.specs.Sound.{IsSound};

use super::given::{broken, note, schema_of_top, the_schema};
use super::line_rows::LINES;
use super::message_rows::MESSAGES;
use super::pieces::joined;
use super::place_rows::PLACES;
use super::value_rows::VALUES;
use super::worked_rows::{FILES, WORKED};
use ipdl_base::Schema;
use std::alloc::{AllocError, Global};
use std::test::Fail;

/// Returns the rules that a line is marked with, as `K4 K5> `, and the line itself.
fn marked(line: &str) -> (Option<&str>, &str) {
    match line.split_once("> ") {
        Some((rules, text)) if line.starts_with("K") => (Some(rules), text),
        _ => (None, line),
    }
}

/// Appends a line: `<N TEXT` is the text with blanks after it, up to N bytes.
fn push_line(line: &str, script: &mut Vec<u8>) -> Result<(), Fail> {
    if let Some(rest) = line.strip_prefix("<") {
        if let Some((digits, text)) = rest.split_once(" ") {
            let len: usize = digits.parse()?;
            script.extend_from_slice(text.as_bytes())?;
            for _ in text.len()..len {
                script.push(b' ')?;
            }
            return Ok(());
        }
    }
    Ok(script.extend_from_slice(line.as_bytes())?)
}

/// Appends the findings of these rules in a line.
fn push_findings(
    rules: &str,
    line: u32,
    column: u32,
    wanted: &mut String,
) -> Result<(), AllocError> {
    for rule in rules.split(' ') {
        write!(wanted, "0:{line}:{column} {rule} ")?;
    }
    Ok(())
}

/// Appends a marked line with this number, and the findings that it is marked with.
fn push_marked(
    line: &str,
    number: u32,
    script: &mut Vec<u8>,
    wanted: &mut String,
) -> Result<(), Fail> {
    let (rules, line) = marked(line);
    if let Some(rules) = rules {
        push_findings(rules, number, 1, wanted)?;
    }
    push_line(line, script)
}

/// Returns the script of marked lines. Appends the findings that they are marked with to `wanted`.
fn script_of(alloc: Global, lines: &str, wanted: &mut String) -> Result<Vec<u8>, Fail> {
    let mut script = Vec::new(alloc);
    let mut number = 0u32;
    for line in lines.split('\n') {
        if number > 0 {
            script.push(b'\n')?;
        }
        number = number.wrapping_add(1);
        push_marked(line, number, &mut script, wanted)?;
    }
    Ok(script)
}

/// Notes a script that breaks other rules than its lines are marked with. Rules before the top's short
/// name are those that the script breaks as a whole.
fn check(alloc: Global, schema: &Schema, row: &str, wrong: &mut String) -> Result<(), Fail>
    requires { IsSound schema.now }
{
    let (head, lines) = row.split_once("\n").ok_or("a row without its first line")?;
    let (rules, head) = marked(head);
    let (top, about) = head.split_once(": ").ok_or("a row without a top")?;
    let mut wanted = String::new(alloc);
    if let Some(rules) = rules {
        push_findings(rules, 0, 0, &mut wanted)?;
    }
    let script = script_of(alloc, lines, &mut wanted)?;
    let found = broken(alloc, schema, top, script.as_slice())?;
    Ok(note(about, found.as_str(), wanted.as_str(), wrong)?)
}

/// Appends the scripts of a table that break other rules than they are marked with, and the number of
/// scripts.
fn push_checked(alloc: Global, schema: &Schema, table: &str, out: &mut String) -> Result<(), Fail>
    requires { IsSound schema.now }
{
    let mut count = 0u32;
    for row in table.split("====\n") {
        check(alloc, schema, row, out)?;
        count = count.wrapping_add(1);
    }
    Ok(write!(out, "{count} ")?)
}

/// Returns the same for the tables of the program of the tests.
fn checked(alloc: Global) -> Result<String, Fail> {
    let schema = the_schema(alloc)?;
    let mut shown = String::new(alloc);
    push_checked(alloc, &schema, LINES, &mut shown)?;
    push_checked(alloc, &schema, MESSAGES, &mut shown)?;
    push_checked(alloc, &schema, VALUES, &mut shown)?;
    push_checked(alloc, &schema, PLACES, &mut shown)?;
    Ok(shown)
}

/// Scripts on lines, messages, values and places, and the number of each.
#[test]
fn rules(rt: HostRuntime) -> Result<(), Fail> {
    assert_eq!(rt; checked(rt.alloc())?.as_str(), "39 18 28 21 ");
    Ok(())
}

/// Notes a worked script that breaks other rules than its lines are marked with.
fn check_worked(alloc: Global, row: &str, wrong: &mut String) -> Result<(), Fail> {
    let (top, _) = row.split_once(": ").ok_or("a row without a top")?;
    let schema = schema_of_top(alloc, FILES, top)?;
    check(alloc, &schema, row, wrong)
}

/// Returns the same for the worked scripts.
fn checked_worked(alloc: Global) -> Result<String, Fail> {
    let mut shown = String::new(alloc);
    let mut count = 0u32;
    for row in WORKED.split("====\n") {
        check_worked(alloc, row, &mut shown)?;
        count = count.wrapping_add(1);
    }
    write!(shown, "{count}")?;
    Ok(shown)
}

#[test]
fn worked(rt: HostRuntime) -> Result<(), Fail> {
    assert_eq!(rt; checked_worked(rt.alloc())?.as_str(), "25");
    Ok(())
}

/// Appends a line that sends this number of bytes.
fn push_put(alloc: Global, count: u32, script: &mut Vec<u8>) -> Result<(), AllocError> {
    let pieces = ["send top PZ.Put(h\"", "00", "\")\n", "", ""];
    Ok(script.extend_from_slice(joined(alloc, pieces, count)?.as_slice())?)
}

/// Returns what lines break that are as long as the greatest payload, or longer. The fourth has 16,386
/// bytes.
fn broken_puts(alloc: Global) -> Result<String, Fail> {
    let schema = schema_of_top(alloc, FILES, "PZ")?;
    let mut script = Vec::from_slice(alloc, b"child main\n")?;
    push_put(alloc, 4092, &mut script)?;
    push_put(alloc, 4093, &mut script)?;
    push_put(alloc, 8182, &mut script)?;
    push_put(alloc, 8183, &mut script)?;
    script.extend_from_slice(b"end\n")?;
    broken(alloc, &schema, "PZ", script.as_slice())
}

#[test]
fn payloads(rt: HostRuntime) -> Result<(), Fail> {
    assert_eq!(rt; broken_puts(rt.alloc())?.as_str(), "0:5:1 K9 ");
    Ok(())
}

/// Texts of any bytes, and what they break.
const BYTES: &[(&[u8], &str)] = &[
    (b"", ""),
    (b"parent main\r\nend\r\n", ""),
    (b"parent main\nend", ""),
    (b"parent main", "0:1:1 K2 "),
    (b"end", "0:1:1 K2 "),
    (b"\n\n\nfrob", "0:4:1 K1 "),
    (b"# \xff\xfe\x00\nparent main\nend", ""),
    (b"parent main\nend\n\xff", "0:3:1 K1 "),
    (b"parent main\n\nend\x00", "0:1:1 K2 0:3:1 K1 "),
    (b"\xef\xbb\xbfparent main\nend\n", "0:1:1 K1 0:2:1 K2 "),
    // Texts must be UTF-8.
    (
        b"parent main\nsend top PT.TellText(\"\xc3\xa4\xe2\x82\xac\xf0\x9d\x84\x9e\x01\x7f\")\nend",
        "",
    ),
    (
        b"parent main\nsend top PT.TellText(\"\xff\")\nend",
        "0:2:1 K1 ",
    ),
    (
        b"parent main\nsend top PT.TellText(\"\xc3\")\nend",
        "0:2:1 K1 ",
    ),
    (
        b"parent main\nsend top PT.TellText(\"\xa4\")\nend",
        "0:2:1 K1 ",
    ),
    (
        b"parent main\nsend top PT.TellText(\"\xc0\x80\")\nend",
        "0:2:1 K1 ",
    ),
    (
        b"parent main\nsend top PT.TellText(\"\xed\xa0\x80\")\nend",
        "0:2:1 K1 ",
    ),
    (
        b"parent main\nsend top PT.TellText(\"\xf4\x90\x80\x80\")\nend",
        "0:2:1 K1 ",
    ),
    (
        b"parent main\nsend top PT.TellText(\"\xc3\\x80\")\nend",
        "0:2:1 K1 ",
    ),
    // Other bytes are not tokens.
    (b"parent main\nlet \xc3\xa4 top\nend", "0:2:1 K1 "),
    (b"parent main\nlet x\xa0top\nend", "0:2:1 K1 "),
];

/// Returns which of these texts break other rules than they should.
fn wrong_bytes(alloc: Global, schema: &Schema) -> Result<String, Fail>
    requires { IsSound schema.now }
{
    let mut wrong = String::new(alloc);
    for (text, wanted) in BYTES {
        let found = broken(alloc, schema, "PT", text)?;
        let row = str::from_utf8(text).unwrap_or("no UTF-8");
        note(row, found.as_str(), wanted, &mut wrong)?;
    }
    Ok(wrong)
}

#[test]
fn bytes(rt: HostRuntime) -> Result<(), Fail> {
    let alloc = rt.alloc();
    let schema = the_schema(alloc)?;
    assert_eq!(rt; wrong_bytes(alloc, &schema)?.as_str(), "");
    Ok(())
}
