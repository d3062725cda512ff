//! The command that prints the frames of a file.
ghost use Rattle.std.specs.Prelude.{◌≡◌, IfOk, Option, List, ℕ, string_bytes};
ghost use Rattle.ipdl_base.specs.Sound.{IsSound};
ghost use Rattle.ipdl_base.specs.declared.files.TheConstants.{MOST_BYTES};
ghost use Rattle.frame_list.specs.FramesTold.{Tells};
ghost use Rattle.ipdl_top.specs.Frames.{SaysBytes, SaysFrames, frames_answer, frames_out};
ghost use Rattle.ipdl_top.specs.Steps.{IsHeld, IsSmall, IsSoundChecked, IsToldOf};

use crate::answer::CommandAnswer;
use crate::checked::CheckResult;
use crate::input_file::{ByInput, InputFile, answer_by_input};
use crate::pipeline::{BySchema, answer_by_schema};
use crate::status::Status;
use command_words::FramesOptions;
use frame_list::{FrameListFault, fault_text, push_lines, push_new_frames};
use ipdl_base::{FileBytes, Schema};
use std::alloc::{AllocError, Global};

/// Appends the text of the frames of a file of these bytes: their lines, or the same messages in new frames. Returns the fault
/// after the last frame, or `None`. Fails only if memory runs out.
fn push_text(
    out: &mut Vec<u8>,
    alloc: Global,
    schema: &Schema,
    convert: bool,
    bytes: &[u8],
) -> Result<Option<FrameListFault>, AllocError>
    requires { IsSound schema.now }
    ensures { IfOk result (Tells (frames_out convert schema.now) schema.now bytes.now out.old.items out.new.items) }
{
    if convert {
        push_new_frames(out, alloc, schema, bytes)
    } else {
        push_lines(out, alloc, schema, bytes)
    }
}

/// Returns the answer by the text of the frames of a file and its fault, if it has one.
fn answer_of(
    alloc: Global,
    name: &str,
    out: Vec<u8>,
    fault: Option<FrameListFault>,
) -> Result<CommandAnswer, AllocError>
    ensures { IfOk result (λ answer. answer ≡ frames_answer name.now out.items fault) }
{
    match fault {
        Some(fault) => {
            let line = fault_text(alloc, name.as_bytes(), &fault)?;
            Ok(CommandAnswer::of_bad_input(Status::BadFrames, out, line))
        }
        None => Ok(CommandAnswer::of_table(alloc, out)),
    }
}

/// Returns the answer by the bytes of a file of frames of this name.
fn bytes_answer(
    alloc: Global,
    schema: &Schema,
    name: &str,
    convert: bool,
    bytes: &[u8],
) -> Result<CommandAnswer, AllocError>
    requires { IsSound schema.now }
    ensures { IfOk result (SaysBytes name.now convert bytes.now schema.now) }
{
    let mut out = Vec::new(alloc);
    let fault = push_text(&mut out, alloc, schema, convert, bytes)?;
    answer_of(alloc, name, out, fault)
}

/// The frames of the bytes, under a schema.
#[derive(Drop)]
struct FramesOfSchema<'w> {
    schema: &'w Schema,
    options: &'w FramesOptions,
}

impl<'w> ByInput for FramesOfSchema<'w> {
    ghost Ready = { λ c. IsSound c.schema.now };

    ghost most = { λ c. MOST_BYTES };

    ghost Says = { λ c bytes. SaysBytes (string_bytes c.options.now.frames) c.options.now.convert bytes c.schema.now };

    fn by_input(self, alloc: Global, bytes: &[u8]) -> Result<CommandAnswer, AllocError> {
        let FramesOfSchema { schema, options } = self;
        bytes_answer(
            alloc,
            schema,
            options.frames.as_str(),
            options.convert,
            bytes,
        )
    }
}

/// The frames of a file.
#[derive(Drop)]
struct FramesCommand<'w> {
    options: &'w FramesOptions,
    frames: &'w FileBytes,
}

impl<'w> BySchema for FramesCommand<'w> {
    ghost Ready = { λ c. IsSmall c.frames.now };

    ghost Fits = { λ c schema. Unit {0} };

    ghost Says = { λ c schema answer. (bytes : Option (List ℕ)) → IsHeld bytes c.frames.now
        → SaysFrames (string_bytes c.options.now.frames) c.options.now.convert bytes schema answer };

    fn by_schema(self, alloc: Global, schema: &Schema) -> Result<CommandAnswer, AllocError> {
        let FramesCommand { options, frames } = self;
        let input = InputFile {
            name: options.frames.as_str(),
            found: frames,
            fault: Status::BadFrames,
        };
        answer_by_input(alloc, &input, FramesOfSchema { schema, options })
    }
}

/// Answers the command that prints the frames of a file: the report on the files, or that there is no file of frames to read, or
/// the lines of the frames, or the same messages in new frames. Fails only if memory runs out.
pub fn answer_frames(
    alloc: Global,
    checked: CheckResult,
    options: &FramesOptions,
    frames: &FileBytes,
) -> Result<CommandAnswer, AllocError>
    requires small { IsSmall frames.now }
    requires sound { IsSoundChecked checked }
    ensures { IfOk result (λ answer. (bytes : Option (List ℕ)) → IsHeld bytes frames.now
        → IsToldOf (SaysFrames (string_bytes options.now.frames) options.now.convert bytes) checked answer) }
{
    answer_by_schema(alloc, checked, FramesCommand { options, frames })
}
