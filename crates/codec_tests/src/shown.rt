//! Bytes and messages as text.
ghost use Rattle.ipdl_base.specs.Sound.{IsSound};

use ipdl_base::{Body, Message, MessageRow, Reason, Schema};
use std::alloc::Global;
use std::test::Fail;
use value_codec::DecodeResult;
use value_types::push_values;

/// Returns the bytes that pairs of hexadecimal digits spell. Blanks may be between them.
pub fn bytes_of(alloc: Global, digits: &str) -> Result<Vec<u8>, Fail> {
    let mut bytes = Vec::new(alloc);
    let mut high = None;
    for c in digits.chars() {
        if let Some(digit) = c.to_digit(16) {
            let digit = u8::try_from(digit)?;
            match high {
                None => high = Some(digit),
                Some(first) => {
                    bytes.push((first & 15) << 4 | (digit & 15))?;
                    high = None;
                }
            }
        }
    }
    Ok(bytes)
}

/// Returns bytes as pairs of hexadecimal digits.
pub fn digits_of(alloc: Global, bytes: &[u8]) -> Result<String, Fail> {
    let mut text = String::new(alloc);
    for byte in bytes {
        write!(text, "{byte:02x}")?;
    }
    Ok(text)
}

fn reason_text(reason: Reason) -> &'static str {
    match reason {
        Reason::ChannelClosed => "ChannelClosed",
        Reason::HandlerRejected => "HandlerRejected",
        Reason::ActorDestroyed => "ActorDestroyed",
        Reason::ResolverDestroyed => "ResolverDestroyed",
    }
}

/// Returns the content of a message of a row.
fn body_text(
    alloc: Global,
    schema: &Schema,
    row: &MessageRow,
    body: &Body,
) -> Result<String, Fail> {
    let mut out = Vec::new(alloc);
    let kind = match body {
        Body::Request(values) => {
            push_values(schema, row.params.as_slice(), values, &mut out)?;
            "request"
        }
        Body::Reply(values) => {
            if let Some(returns) = &row.returns {
                push_values(schema, returns.as_slice(), values, &mut out)?;
            }
            "reply"
        }
        Body::Fault(reason) => reason_text(*reason),
        Body::Goodbye => "goodbye",
    };
    let values = str::from_utf8(out.as_slice())?;
    Ok(format!(in alloc; "{kind} {}({values})", str::from_utf8(row.name.as_slice())?)?)
}

/// Returns a message in one line.
pub fn message_text(alloc: Global, schema: &Schema, message: &Message) -> Result<String, Fail>
    requires { IsSound schema.now }
{
    let body = match schema.message(message.number) {
        Some(row) => body_text(alloc, schema, row, &message.body)?,
        None => String::from_str(alloc, "goodbye")?,
    };
    Ok(format!(in alloc;
        "{}/{} to {} made {} {}",
        message.seq,
        message.transaction,
        message.route,
        message.made,
        body.as_str()
    )?)
}

/// Returns what was decoded, in one line.
pub fn decoded_text(alloc: Global, schema: &Schema, decoded: &DecodeResult) -> Result<String, Fail>
    requires { IsSound schema.now }
{
    match decoded {
        DecodeResult::Frame(message, size) => {
            let text = message_text(alloc, schema, message)?;
            Ok(format!(in alloc; "{size} {}", text.as_str())?)
        }
        DecodeResult::Short(rest) => Ok(format!(in alloc; "short {rest}")?),
        DecodeResult::Bad(offset, rule) => Ok(format!(in alloc; "{offset} F{rule}")?),
        DecodeResult::NoMemory => Ok(String::from_str(alloc, "no memory")?),
    }
}
