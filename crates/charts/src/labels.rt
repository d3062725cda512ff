//! The label of a row.
ghost use Rattle.std.specs.Prelude.{◌≡◌, ◌++◌, OnOk};
ghost use Rattle.ipdl_base.specs.Sound.{IsSound};
ghost use Rattle.charts.specs.Labels as label;

use crate::escapes::push_shown;
use history::{push_listed, push_message, push_numbered};
use ipdl_base::{Schema, TOP_ID, Values, What, params_of};
use std::alloc::AllocError;

/// The most characters of values that are shown.
const MOST_CHARACTERS: usize = 40;

/// Returns whether a byte goes on with a character of UTF-8.
fn is_continuation(byte: u8) -> bool
    ensures { result ≡ label.is_continuation byte }
{
    127 < byte && byte < 192
}

/// Returns how many bytes of values and the bracket after them are kept, if they have more than 40 characters before it.
fn kept_values(values: &[u8]) -> Option<usize>
    ensures { result ≡ label.kept_values 40 values.now }
{
    let mut left = MOST_CHARACTERS;
    let mut kept = 0;
    let mut rest = values;
    while let Some((byte, more)) = rest.split_first() {
        if !is_continuation(*byte) {
            if left == 0 {
                return if more.is_empty() { None } else { Some(kept) };
            }
            left -= 1;
        }
        kept += 1;
        rest = more;
    }
    None
}

/// Returns how many bytes of a line are kept, if its values have more than 40 characters.
fn kept_length(text: &[u8]) -> Option<usize>
    ensures { result ≡ label.kept_length text.now }
{
    let mut kept = 0;
    let mut rest = text;
    while let Some((byte, more)) = rest.split_first() {
        kept += 1;
        if *byte == b'(' {
            return match kept_values(more) {
                None => None,
                Some(values) => Some(kept + values),
            };
        }
        rest = more;
    }
    None
}

/// Appends a line with its values cut after 40 characters.
pub fn push_cut(out: &mut Vec<u8>, text: &[u8]) -> Result<(), AllocError>
    ensures { OnOk result (out.new.items ≡ out.old.items ++ label.cut text.now) }
{
    match kept_length(text) {
        None => push_shown(out, text),
        Some(kept) => {
            push_shown(out, &text[..kept])?;
            out.extend_from_slice(b"\xe2\x80\xa6")?;
            out.extend_from_slice(b")")
        }
    }
}

/// Appends the actor that a request goes to, unless it is the top.
fn push_route(out: &mut Vec<u8>, route: i32) -> Result<(), AllocError>
    ensures { OnOk result (out.new.items ≡ out.old.items ++ label.route_text route) }
{
    if route == TOP_ID {
        Ok(())
    } else {
        push_numbered(out, b" #", route)
    }
}

/// Appends the words of a request: its verb and number, its actor, its message and its values.
fn push_request(
    out: &mut Vec<u8>,
    schema: &Schema,
    verb: &[u8],
    number: i32,
    route: i32,
    message: u32,
    values: &Values,
) -> Result<(), AllocError>
    requires { IsSound schema.now }
    ensures { OnOk result (out.new.items ≡ out.old.items ++ label.request_label schema.now verb.now number route message values.now) }
{
    push_numbered(out, verb, number)?;
    push_route(out, route)?;
    out.extend_from_slice(b" ")?;
    push_message(out, schema, message)?;
    push_listed(out, schema, params_of(schema, message), values)
}

/// Appends the words of a row, before they are cut: those of the line, but a request without its transaction and the id of the
/// top.
pub fn push_row_words(
    out: &mut Vec<u8>,
    schema: &Schema,
    words: &[u8],
    what: &What,
) -> Result<(), AllocError>
    requires { IsSound schema.now }
    ensures { OnOk result (out.new.items ≡ out.old.items ++ label.row_words schema.now words.now what.now) }
{
    match what {
        What::Send(number, route, message, values) => {
            push_request(out, schema, b"send ", *number, *route, *message, values)
        }
        What::Call(number, _, route, message, values) => {
            push_request(out, schema, b"call ", *number, *route, *message, values)
        }
        What::Take(number, route, message, values) => {
            push_request(out, schema, b"take ", *number, *route, *message, values)
        }
        _ => out.extend_from_slice(words),
    }
}
