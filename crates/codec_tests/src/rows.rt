//! Tests of the rows of both layouts.
ghost use Rattle.ipdl_base.specs.Sound.{IsSound};
ghost use Rattle.value_types.specs.Fits.{Fits};

use super::checks::{check, check_count, cut};
use super::encodes::framed;
use super::new_rows::{NEW_ROWS, NEW_ROWS_COUNT};
use super::old_rows::{OLD_ROWS, OLD_ROWS_COUNT};
use super::schemas::the_schema;
use super::shown::{bytes_of, decoded_text};
use ipdl_base::{Message, Schema};
use std::alloc::Global;
use std::test::Fail;
use value_codec::{DecodeResult, decode, decode_old};

/// Returns what the bytes of a row begin with in the old layout.
fn old_text(alloc: Global, schema: &Schema, digits: &str) -> Result<String, Fail>
    requires { IsSound schema.now }
{
    let bytes = bytes_of(alloc, digits)?;
    let decoded = decode_old(alloc, schema, bytes.as_slice());
    decoded_text(alloc, schema, &decoded)
}

#[test]
fn old_rows(rt: HostRuntime) -> Result<(), Fail> {
    check_count(&rt, OLD_ROWS, OLD_ROWS_COUNT);
    let alloc = rt.alloc();
    let schema = the_schema(alloc)?;
    for row in OLD_ROWS.split("\n") {
        let (digits, wanted) = cut(row, ": ");
        let found = old_text(alloc, &schema, digits)?;
        check(&rt, digits, found.as_str(), wanted);
    }
    Ok(())
}

/// Returns whether a message is written as the frame of this size that these digits begin with.
fn is_frame(
    alloc: Global,
    schema: &Schema,
    message: &Message,
    size: usize,
    digits: &str,
) -> Result<bool, Fail>
    requires sound { IsSound schema.now }
    requires fits { Fits schema.now message.now }
{
    let found = framed(alloc, schema, message)?;
    let whole = format!(in alloc; "{size} 07{digits}")?;
    Ok(whole.starts_with(found.as_str()))
}

/// Returns what the bytes of a row begin with in the new layout, and whether a frame there is the one that is
/// written.
fn new_text(alloc: Global, schema: &Schema, digits: &str) -> Result<String, Fail>
    requires { IsSound schema.now }
{
    let bytes = bytes_of(alloc, digits)?;
    let decoded = decode(alloc, schema, bytes.as_slice());
    if let DecodeResult::Frame(message, size) = &decoded {
        if !is_frame(alloc, schema, message, *size, digits)? {
            return Err("another frame is written".into());
        }
    }
    decoded_text(alloc, schema, &decoded)
}

/// Checks each row's answer for its bytes, and that a frame there is the one that is written.
#[test]
fn new_rows(rt: HostRuntime) -> Result<(), Fail> {
    check_count(&rt, NEW_ROWS, NEW_ROWS_COUNT);
    let alloc = rt.alloc();
    let schema = the_schema(alloc)?;
    for row in NEW_ROWS.split("\n") {
        let (digits, wanted) = cut(row, ": ");
        let found = new_text(alloc, &schema, digits)?;
        check(&rt, digits, found.as_str(), wanted);
    }
    Ok(())
}
