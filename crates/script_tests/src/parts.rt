//! Messages by name, directions, and values that fit types.

use super::given::{note, the_schema};
use super::pieces::joined;
use super::shows::push_terms;
use handler_script::{MessageTable, Term, Terms, each_fits, receives, replies, resolves, terms_of};
use ipdl_base::{Builtin, Direction, MessageRow, Name, ParamRow, Schema, Shape, Side};
use script_reader::{LineReading, LineReadings, MessageName, Statement, WrittenValues, read_lines};
use std::alloc::{AllocError, Global};
use std::test::Fail;

/// Returns the name that a text spells.
fn name(alloc: Global, text: &str) -> Result<Name, AllocError> {
    Name::from_slice(alloc, text.as_bytes())
}

/// Returns the message with this name, or `None` if it does not exist.
fn named<'a>(
    alloc: Global,
    messages: &MessageTable<'a>,
    protocol: &str,
    message: &str,
) -> Result<Option<&'a MessageRow>, AllocError> {
    let protocol = name(alloc, protocol)?;
    let message = name(alloc, message)?;
    Ok(messages.find(&MessageName { protocol, message }))
}

/// Messages by name, with the numbers of their requests, and the number of values that answer them as
/// async and as sync messages; 9 if there is no such answer.
const MESSAGES: &[(&str, &str, &str)] = &[
    ("PT", "Flag", "196608 9 9"),
    ("PT", "Small", "196610 9 9"),
    ("PT", "Look", "196644 9 2"),
    ("PT", "Plain", "196646 9 9"),
    ("PT", "Blank", "196648 9 0"),
    ("PT", "Get", "196650 1 9"),
    ("PT", "Done", "196652 0 9"),
    ("PT", "PS", "196654 9 1"),
    ("PK", "Note", "65536 9 9"),
    ("PK", "__delete__", "65538 9 9"),
    ("PX", "Hi", "327680 9 9"),
    ("PT", "Gone", "none"),
    ("PT", "flag", "none"),
    ("PZ", "Flag", "none"),
    ("PK", "PK", "none"),
    ("x::y::PX", "Hi", "none"),
    ("", "", "none"),
];

/// Returns a message in the form of `MESSAGES`.
fn shown(alloc: Global, message: Option<&MessageRow>) -> Result<String, AllocError> {
    let Some(message) = message else {
        return String::from_str(alloc, "none");
    };
    let number = message.number;
    let resolved = resolves(message).map_or(9, |returns| returns.len());
    let replied = replies(message).map_or(9, |returns| returns.len());
    format!(in alloc; "{number} {resolved} {replied}")
}

/// Returns which of these messages differ.
fn wrong_messages(alloc: Global) -> Result<String, Fail> {
    let schema = the_schema(alloc)?;
    let messages = MessageTable::new(alloc, &schema)?;
    let mut wrong = String::new(alloc);
    for (protocol, name, wanted) in MESSAGES {
        let found = shown(alloc, named(alloc, &messages, protocol, name)?)?;
        note(name, found.as_str(), wanted, &mut wrong)?;
    }
    Ok(wrong)
}

/// Whether a side receives messages of a direction, and whether it sends them.
const DIRECTIONS: &[(Side, Direction, bool, bool)] = &[
    (Side::Parent, Direction::Parent, true, false),
    (Side::Parent, Direction::Child, false, true),
    (Side::Parent, Direction::Both, true, true),
    (Side::Child, Direction::Parent, false, true),
    (Side::Child, Direction::Child, true, false),
    (Side::Child, Direction::Both, true, true),
];

#[test]
fn messages(rt: HostRuntime) -> Result<(), Fail> {
    assert_eq!(rt; wrong_messages(rt.alloc())?.as_str(), "");
    Ok(())
}

#[test]
fn directions(rt: HostRuntime) {
    for (side, direction, received, sent) in DIRECTIONS {
        assert!(rt; receives(*side, *direction) == *received && side.sends(*direction) == *sent);
    }
}

/// Returns the values of the first line, which is a `resolve`.
fn values_in(readings: &LineReadings) -> Result<&WrittenValues, Fail> {
    match readings.as_slice().first() {
        Some(LineReading::Statement(held)) => match held.as_ref() {
            Statement::Resolve(values) => Ok(values),
            _ => Err("another statement".into()),
        },
        _ => Err("no statement".into()),
    }
}

/// Values in the handler of `PT.Many`: whether they fit the parameters of a message of `PT`, and their
/// terms.
const FITS: &[(&str, &str, &str)] = &[
    ("Flag", "resolve (true)", "true true,"),
    ("Flag", "resolve ($4)", "true param 4,"),
    ("Flag", "resolve ($5)", "false param 5,"),
    ("Flag", "resolve ()", "false "),
    ("Flag", "resolve (true, 1)", "false true,"),
    (
        "Holds",
        "resolve (some true, some 1, [-1], none)",
        "true some true,some 1,[-1,],none,",
    ),
    (
        "Actors",
        "resolve (top, null, $11)",
        "true who top,actor 0,param 11,",
    ),
    (
        "Actors",
        "resolve (made, $12, $12)",
        "false who made,param 12,param 12,",
    ),
    (
        "Floats",
        "resolve (h\"00000001\", h\"0000000000000001\")",
        "true bits 1,bits 1,",
    ),
    (
        "TellBytes",
        "resolve (h\"00000001\")",
        "true bytes 00000001,",
    ),
];

/// Returns whether values fit these parameters, and their terms.
fn fitted(
    alloc: Global,
    schema: &Schema,
    values: &WrittenValues,
    given: &[ParamRow],
    fields: &[ParamRow],
) -> Result<String, AllocError> {
    let mut shown = String::new(alloc);
    write!(shown, "{} ", each_fits(values, schema, given, fields))?;
    push_terms(&terms_of(values, alloc, schema, fields)?, &mut shown)?;
    Ok(shown)
}

/// Notes the values of a line if they do not fit a message as expected.
fn check_fit(
    alloc: Global,
    schema: &Schema,
    message: &str,
    line: &str,
    wanted: &str,
    wrong: &mut String,
) -> Result<(), Fail> {
    let messages = MessageTable::new(alloc, schema)?;
    let many = named(alloc, &messages, "PT", "Many")?.ok_or("no message")?;
    let message = named(alloc, &messages, "PT", message)?.ok_or("no message")?;
    let (given, fields) = (many.params.as_slice(), message.params.as_slice());
    let readings = read_lines(alloc, line.as_bytes())?;
    let found = fitted(alloc, schema, values_in(&readings)?, given, fields)?;
    Ok(note(line, found.as_str(), wanted, wrong)?)
}

/// Returns which of these do not fit as expected.
fn wrong_fits(alloc: Global) -> Result<String, Fail> {
    let schema = the_schema(alloc)?;
    let mut wrong = String::new(alloc);
    for (name, line, wanted) in FITS {
        check_fit(alloc, &schema, name, line, wanted, &mut wrong)?;
    }
    Ok(wrong)
}

#[test]
fn fits_and_terms(rt: HostRuntime) -> Result<(), Fail> {
    assert_eq!(rt; wrong_fits(rt.alloc())?.as_str(), "");
    Ok(())
}

/// Returns the type of nested arrays of this depth.
fn arrays(alloc: Global, count: u32) -> Result<Shape, AllocError> {
    let mut shape = Shape::Builtin(Builtin::Bool);
    for _ in 0..count {
        shape = Shape::Array(Box::new(alloc, shape)?);
    }
    Ok(shape)
}

/// Returns one parameter of that type.
fn field(alloc: Global, count: u32) -> Result<Vec<ParamRow>, AllocError> {
    let row = ParamRow {
        name: Name::empty(),
        shape: arrays(alloc, count)?,
    };
    let mut rows = Vec::new(alloc);
    rows.push(row)?;
    Ok(rows)
}

/// Returns how many arrays are nested, each the only element of the one around it.
fn depth(terms: &Terms) -> u32 {
    match terms {
        Terms::First(first, _) => match first.as_ref() {
            Term::Array(inner) => depth(inner).wrapping_add(1),
            _ => 0,
        },
        Terms::Nothing => 0,
    }
}

/// Appends whether values fit arrays of this depth.
fn push_fit(
    alloc: Global,
    schema: &Schema,
    values: &WrittenValues,
    count: u32,
    out: &mut String,
) -> Result<(), AllocError> {
    let fields = field(alloc, count)?;
    write!(
        out,
        "{} ",
        each_fits(values, schema, &[], fields.as_slice())
    )
}

/// Appends how deep the terms of values are, and how deep their copy is.
fn push_depths(
    alloc: Global,
    schema: &Schema,
    values: &WrittenValues,
    out: &mut String,
) -> Result<(), AllocError> {
    let fields = field(alloc, 8000)?;
    let terms = terms_of(values, alloc, schema, fields.as_slice())?;
    let copied = terms.copy(alloc)?;
    write!(out, "{} {}", depth(&terms), depth(&copied))
}

/// Returns what the values of a line fit, and how deep they are.
fn nested_text(alloc: Global, schema: &Schema, line: &[u8]) -> Result<String, Fail> {
    let readings = read_lines(alloc, line)?;
    let values = values_in(&readings)?;
    let mut shown = String::new(alloc);
    push_fit(alloc, schema, values, 8000, &mut shown)?;
    push_fit(alloc, schema, values, 8001, &mut shown)?;
    push_fit(alloc, schema, values, 7999, &mut shown)?;
    push_depths(alloc, schema, values, &mut shown)?;
    Ok(shown)
}

/// Returns the same for this number of nested arrays. The innermost is empty.
fn arrays_text(alloc: Global, count: u32) -> Result<String, Fail> {
    let schema = the_schema(alloc)?;
    let line = joined(alloc, ["resolve (", "[", "", "]", ")"], count)?;
    nested_text(alloc, &schema, line.as_slice())
}

/// Arrays 8,000 deep are read, fitted, copied and dropped. The innermost is empty, so it fits deeper
/// arrays, but not shallower ones.
#[test]
fn arrays_in_arrays(rt: HostRuntime) -> Result<(), Fail> {
    let shown = arrays_text(rt.alloc(), 8000)?;
    assert_eq!(rt; shown.as_str(), "true true false 8000 8000");
    Ok(())
}
