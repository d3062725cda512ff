//! Writes the frames of a file. Each is written as soon as it is found, so only one message is in memory at a
//! time.

ghost use Rattle.std.specs.Prelude.{◌≡◌, ◌<◌, ◌≤◌, ◌+◌, ◌++◌, IfOk, OnOk, length, drop};
ghost use Rattle.ipdl_base.specs.Sound.{IsSound};
ghost use Rattle.frame_list.specs.Converted.{new_frames};
ghost use Rattle.frame_list.specs.Lines.{frames_lines};
ghost use Rattle.frame_list.specs.Steps.{HasNewFrame, IsStep, all_in_form, in_form};
ghost use Rattle.frame_list.specs.FramesTold.{Tells};

use crate::convert::push_new;
use crate::list::{FrameListFault, FrameReading, PlacedMessage, found_at};
use crate::text::push_line;
use ipdl_base::Schema;
use std::alloc::{AllocError, Global};
use value_types::{boxes_say_nothing, new_is_at_most_four_times};

/// The form in which a frame is written.
#[derive(Clone, Copy)]
enum Form {
    /// The line of the frame.
    Line,
    /// The new frame of its message.
    NewFrame,
}

/// What was written for an offset.
#[derive(Clone, Copy)]
enum Step {
    /// A frame, and the number of its bytes.
    Frame(usize),
    /// No frame.
    Fault(FrameListFault),
}

/// Appends a frame in a form.
fn push_in_form(
    out: &mut Vec<u8>,
    alloc: Global,
    schema: &Schema,
    form: Form,
    placed: &PlacedMessage,
) -> Result<(), AllocError>
    requires sound { IsSound schema.now }
    requires new { HasNewFrame schema.now placed.now.message }
    ensures { OnOk result (out.new.items ≡ out.old.items ++ in_form form schema.now placed.now) }
{
    match form {
        Form::Line => push_line(out, schema, placed),
        Form::NewFrame => push_new(out, alloc, schema, placed),
    }
}

/// Appends the frame at an offset of a file, where these bytes are left, and returns its size or the fault.
fn push_step(
    out: &mut Vec<u8>,
    alloc: Global,
    schema: &Schema,
    form: Form,
    offset: usize,
    bytes: &[u8],
) -> Result<Step, AllocError>
    requires sound { IsSound schema.now }
    requires within { offset + length bytes.now ≤ usize.MAX }
    ensures { IfOk result (IsStep form schema.now offset bytes.now out.old.items out.new.items) }
{
    boxes_say_nothing();
    new_is_at_most_four_times();
    match found_at(alloc, schema, offset, bytes)? {
        FrameReading::Frame(message, size) => {
            let placed = PlacedMessage { offset, message };
            push_in_form(out, alloc, schema, form, &placed)?;
            Ok(Step::Frame(size))
        }
        FrameReading::Fault(fault) => Ok(Step::Fault(fault)),
    }
}

/// Appends the frames of a file in a form, and returns where the bytes are no longer a list of frames, if
/// anywhere.
fn push_frames(
    out: &mut Vec<u8>,
    alloc: Global,
    schema: &Schema,
    form: Form,
    bytes: &[u8],
) -> Result<Option<FrameListFault>, AllocError>
    requires { IsSound schema.now }
    ensures { IfOk result (Tells (all_in_form form schema.now) schema.now bytes.now out.old.items out.new.items) }
{
    let mut rest = bytes;
    let mut offset = 0;
    while !rest.is_empty() {
        match push_step(out, alloc, schema, form, offset, rest)? {
            Step::Frame(size) => {
                let (_, following) = rest.split_at(size);
                rest = following;
                offset += size;
            }
            Step::Fault(fault) => return Ok(Some(fault)),
        }
    }
    Ok(None)
}

/// Appends the lines of the frames in the bytes of a file (docs/frames.md): for each frame its offset and the
/// content of its message. Returns where the bytes are no longer a list of frames, if anywhere. Fails only if
/// memory runs out.
pub fn push_lines(
    out: &mut Vec<u8>,
    alloc: Global,
    schema: &Schema,
    bytes: &[u8],
) -> Result<Option<FrameListFault>, AllocError>
    requires { IsSound schema.now }
    ensures { IfOk result (Tells (frames_lines schema.now) schema.now bytes.now out.old.items out.new.items) }
{
    push_frames(out, alloc, schema, Form::Line, bytes)
}

/// Appends the messages of the frames in the bytes of a file as new frames, one after another
/// (docs/frames.md). Each message has a new frame, since a payload takes at most four times as many bytes in
/// the new layout as in the old one. Returns where the bytes are no longer a list of frames, if anywhere.
/// Fails only if memory runs out.
pub fn push_new_frames(
    out: &mut Vec<u8>,
    alloc: Global,
    schema: &Schema,
    bytes: &[u8],
) -> Result<Option<FrameListFault>, AllocError>
    requires { IsSound schema.now }
    ensures { IfOk result (Tells (new_frames schema.now) schema.now bytes.now out.old.items out.new.items) }
{
    push_frames(out, alloc, schema, Form::NewFrame, bytes)
}
