//! The lines of frames and of faults.
ghost use Rattle.std.specs.Prelude.{◌≡◌, ◌++◌, IfOk, OnOk, [], if◌then◌else◌, pos, codes};
ghost use Rattle.std.specs.Ordering.{int_eq};
ghost use Rattle.ipdl_base.specs.Sound.{IsSound};
ghost use Rattle.frame_list.specs.Lines.{addressed, fault_line, frame_line, made_text, receiver_text, said_text};

use crate::list::{FrameListFault, PlacedMessage};
use history::{push_listed, push_message, push_numbered, reason_word};
use ipdl_base::{Body, Message, Schema, params_of, returns_of};
use std::alloc::{AllocError, Global};
use value_types::push_decimal;

/// Appends the actor that a message goes to, and the message's name.
fn push_receiver(out: &mut Vec<u8>, schema: &Schema, message: &Message) -> Result<(), AllocError>
    requires { IsSound schema.now }
    ensures { OnOk result (out.new.items ≡ out.old.items ++ receiver_text schema.now message.now) }
{
    push_numbered(out, b" to ", message.route)?;
    out.extend_from_slice(b" ")?;
    push_message(out, schema, message.number)
}

/// Appends a word, the number and the transaction of a message, its receiver and its name.
fn push_addressed(
    out: &mut Vec<u8>,
    schema: &Schema,
    word: &[u8],
    message: &Message,
) -> Result<(), AllocError>
    requires { IsSound schema.now }
    ensures { OnOk result (out.new.items ≡ out.old.items ++ addressed schema.now word.now message.now) }
{
    push_numbered(out, word, message.seq)?;
    push_numbered(out, b"/", message.transaction)?;
    push_receiver(out, schema, message)
}

/// Appends the new actor of a request, if it is a constructor's.
fn push_made(out: &mut Vec<u8>, made: i32) -> Result<(), AllocError>
    ensures { OnOk result (out.new.items ≡ out.old.items ++ made_text made) }
{
    if made == 0 {
        Ok(())
    } else {
        push_numbered(out, b" made ", made)
    }
}

/// Appends the content of a message.
fn push_said(out: &mut Vec<u8>, schema: &Schema, message: &Message) -> Result<(), AllocError>
    requires { IsSound schema.now }
    ensures { OnOk result (out.new.items ≡ out.old.items ++ said_text schema.now message.now message.now.body) }
{
    match &message.body {
        Body::Request(values) => {
            push_addressed(out, schema, b"request ", message)?;
            let types = params_of(schema, message.number);
            push_listed(out, schema, types, values)?;
            push_made(out, message.made)
        }
        Body::Reply(values) => {
            push_addressed(out, schema, b"reply ", message)?;
            out.extend_from_slice(b" ok ")?;
            let types = returns_of(schema, message.number);
            push_listed(out, schema, types, values)
        }
        Body::Fault(reason) => {
            push_addressed(out, schema, b"reply ", message)?;
            out.extend_from_slice(b" fault ")?;
            out.extend_from_slice(reason_word(*reason))
        }
        Body::Goodbye => out.extend_from_slice(b"goodbye"),
    }
}

/// Appends the line of a frame.
pub(crate) fn push_line(
    out: &mut Vec<u8>,
    schema: &Schema,
    placed: &PlacedMessage,
) -> Result<(), AllocError>
    requires { IsSound schema.now }
    ensures { OnOk result (out.new.items ≡ out.old.items ++ frame_line schema.now placed.now) }
{
    push_decimal(out, placed.offset)?;
    out.extend_from_slice(b" ")?;
    push_said(out, schema, &placed.message)?;
    out.extend_from_slice(b"\n")
}

/// Returns the line that reports why the file of this name is no longer a list of frames (docs/frames.md).
pub fn fault_text(alloc: Global, name: &[u8], fault: &FrameListFault) -> Result<Vec<u8>, AllocError>
    ensures { IfOk result (λ text. text.items ≡ fault_line name.now fault.now) }
{
    let printed = match fault {
        FrameListFault::Short(at, missing) => format!(in alloc; ":{at}: short {missing}\n")?,
        FrameListFault::Broken(at, rule) => format!(in alloc; ":{at}: {rule}\n")?,
    };
    let mut text = Vec::from_slice(alloc, name)?;
    text.extend_from_slice(printed.as_bytes())?;
    Ok(text)
}
