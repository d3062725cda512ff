//! A file of frames: the messages in it, one frame after another in either layout, written as lines or as new
//! frames.
//! Where the file is not a list of frames, the line of the fault (docs/frames.md).
#![tactic(auto)]

mod convert;
mod list;
mod text;
mod told;

pub use list::{FrameListFault, PlacedMessage, frame_rule};
pub use text::fault_text;
pub use told::{push_lines, push_new_frames};
