//! Terms and statements as text.

use handler_script::{Term, Terms, Who};
use ipdl_base::{Name, Side};
use script_reader::{Atom, Statement, WrittenMessage, WrittenValue, WrittenValues};
use std::alloc::AllocError;

/// Returns the text of a name.
pub fn text(name: &Name) -> &str {
    str::from_utf8(name.as_slice()).unwrap_or("no text")
}

/// Appends what a value refers to.
pub fn push_who(who: &Who, out: &mut String) -> Result<(), AllocError> {
    match who {
        Who::Top => out.push_str("top"),
        Who::This => out.push_str("this"),
        Who::Made => out.push_str("made"),
        Who::Param(n) => write!(out, "${n}"),
        Who::Name(name) => out.push_str(text(name)),
    }
}

/// Appends bytes, each by its two digits.
pub fn push_bytes(bytes: &[u8], out: &mut String) -> Result<(), AllocError> {
    for byte in bytes {
        write!(out, "{byte:02x}")?;
    }
    Ok(())
}

/// Appends a term, with a word before it if the text alone does not show which kind it is.
#[cycle(shown)]
fn push_term(term: &Term, out: &mut String) -> Result<(), AllocError> {
    match term {
        Term::Bool(b) => write!(out, "{b}"),
        Term::Int(n) => write!(out, "{n}"),
        Term::Text(name) => write!(out, "text {}", text(name)),
        Term::Bytes(bytes) => {
            out.push_str("bytes ")?;
            push_bytes(bytes.as_slice(), out)
        }
        Term::Bits(bits) => write!(out, "bits {bits:x}"),
        Term::Struct(fields) => push_group('{', fields, '}', out),
        Term::Union(index, held) => {
            write!(out, "@{index} ")?;
            push_term(held, out)
        }
        Term::Array(elements) => push_group('[', elements, ']', out),
        Term::Maybe(None) => out.push_str("none"),
        Term::Maybe(Some(held)) => {
            out.push_str("some ")?;
            push_term(held, out)
        }
        Term::Actor(id) => write!(out, "actor {id}"),
        Term::Param(n) => write!(out, "param {n}"),
        Term::Who(who) => {
            out.push_str("who ")?;
            push_who(who, out)
        }
    }
}

/// Appends terms between marks.
#[cycle(shown)]
fn push_group(open: char, terms: &Terms, close: char, out: &mut String) -> Result<(), AllocError> {
    out.push(open)?;
    push_terms(terms, out)?;
    out.push(close)
}

/// Appends terms, each followed by a comma.
#[cycle(shown)]
pub fn push_terms(terms: &Terms, out: &mut String) -> Result<(), AllocError> {
    match terms {
        Terms::Nothing => Ok(()),
        Terms::First(first, rest) => {
            push_term(first, out)?;
            out.push(',')?;
            push_terms(rest, out)
        }
    }
}

/// Appends a value of one token.
fn push_atom(atom: &Atom, out: &mut String) -> Result<(), AllocError> {
    match atom {
        Atom::Number(n) => write!(out, "{n}"),
        Atom::Text(name) => write!(out, "text {}", text(name)),
        Atom::Bytes(bytes) => {
            out.push_str("bytes ")?;
            push_bytes(bytes.as_slice(), out)
        }
        _ => out.push_str("another atom"),
    }
}

/// Appends a value as it is written.
#[cycle(written)]
fn push_written(value: &WrittenValue, out: &mut String) -> Result<(), AllocError> {
    match value {
        WrittenValue::Atom(atom) => push_atom(atom, out),
        WrittenValue::Array(elements) => {
            out.push('[')?;
            push_values(elements, out)?;
            out.push(']')
        }
        WrittenValue::Union(index, held) => {
            write!(out, "@{index} ")?;
            push_written(held, out)
        }
        _ => out.push_str("another value"),
    }
}

/// Appends values, each followed by a comma.
#[cycle(written)]
fn push_values(values: &WrittenValues, out: &mut String) -> Result<(), AllocError> {
    match values {
        WrittenValues::Nothing => Ok(()),
        WrittenValues::First(first, rest) => {
            push_written(first, out)?;
            out.push(',')?;
            push_values(rest, out)
        }
    }
}

/// Appends a message with its values.
fn push_call(call: &WrittenMessage, out: &mut String) -> Result<(), AllocError> {
    let (protocol, message) = (text(&call.message.protocol), text(&call.message.message));
    write!(out, "{protocol}.{message} ")?;
    push_values(&call.values, out)
}

/// Appends a statement, for some forms of statements.
pub fn push_statement(statement: &Statement, out: &mut String) -> Result<(), AllocError> {
    match statement {
        Statement::Main(Side::Child) => out.push_str("child main"),
        Statement::Let(name, who) => {
            write!(out, "let {} ", text(name))?;
            push_who(who, out)
        }
        Statement::Return(values) => {
            out.push_str("return ")?;
            push_values(values, out)
        }
        Statement::Resolve(values) => {
            out.push_str("resolve ")?;
            push_values(values, out)
        }
        Statement::Send(who, call) => {
            out.push_str("send ")?;
            push_who(who, out)?;
            out.push(' ')?;
            push_call(call, out)
        }
        _ => out.push_str("another statement"),
    }
}
