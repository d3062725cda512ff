//! Finds the frame at an offset of a file.
ghost use Rattle.std.specs.Prelude.{◌≡◌, ◌≤◌, ◌+◌, IfOk, length, take};
ghost use Rattle.std.specs.Str.{bytes_eq};
ghost use Rattle.ipdl_base.specs.Sound.{IsSound};
ghost use Rattle.value_types.specs.declared.layout.TheConstants.{MARK};
ghost use Rattle.value_codec.specs.Decoding.{IsTrueOf};
ghost use Rattle.frame_list.specs.Frames.{frame_rule as the_frame_rule, layout_at};
ghost use Rattle.frame_list.specs.Steps.{IsFound};

use ipdl_base::{Message, Rule, Schema};
use std::alloc::{AllocError, Global};
use value_codec::{DecodeResult, decode, decode_old};
use value_types::MARK;

/// A message, and where its frame begins among the bytes of a file.
#[derive(Drop)]
pub struct PlacedMessage {
    /// The offset of the frame in the file.
    pub offset: usize,
    /// The message of the frame.
    pub message: Message,
}

/// Where a file is no longer a list of frames.
#[derive(Clone, Copy)]
pub enum FrameListFault {
    /// The bytes at this offset are less than a frame. The second number is how many bytes are missing.
    Short(usize, usize),
    /// A rule is broken at this offset.
    Broken(usize, Rule),
}

/// What is at an offset of a file.
#[derive(Drop)]
pub(crate) enum FrameReading {
    /// A frame of this message, and the number of its bytes.
    Frame(Message, usize),
    /// No frame.
    Fault(FrameListFault),
}

/// Returns whether bytes begin with the mark of the new layout.
fn is_marked(bytes: &[u8]) -> bool
    ensures { result ≡ bytes_eq (take 4 bytes.now) MARK }
{
    bytes.starts_with(&MARK)
}

/// Returns the rule on frames with this number. All of them have the letter F.
pub fn frame_rule(number: u8) -> Rule
    ensures { result ≡ the_frame_rule number }
{
    Rule {
        letter: Rule::BAD_MARK.letter,
        number,
    }
}

/// Decodes the frame that the bytes begin with, in the layout that their first bytes show.
fn begun(alloc: Global, schema: &Schema, bytes: &[u8]) -> DecodeResult
    requires { IsSound schema.now }
    ensures { IsTrueOf (layout_at bytes.now) schema.now bytes.now result }
{
    if is_marked(bytes) {
        decode(alloc, schema, bytes)
    } else {
        decode_old(alloc, schema, bytes)
    }
}

/// Finds what is at an offset of a file, where these bytes are left.
pub(crate) fn found_at(
    alloc: Global,
    schema: &Schema,
    offset: usize,
    bytes: &[u8],
) -> Result<FrameReading, AllocError>
    requires sound { IsSound schema.now }
    requires within { offset + length bytes.now ≤ usize.MAX }
    ensures { IfOk result (IsFound schema.now offset bytes.now) }
{
    match begun(alloc, schema, bytes) {
        DecodeResult::Frame(message, size) => Ok(FrameReading::Frame(message, size)),
        DecodeResult::Short(missing) => Ok(FrameReading::Fault(FrameListFault::Short(
            offset, missing,
        ))),
        DecodeResult::Bad(within, number) => {
            let rule = frame_rule(number);
            Ok(FrameReading::Fault(FrameListFault::Broken(offset + within, rule)))
        }
        DecodeResult::NoMemory => Err(AllocError),
    }
}
