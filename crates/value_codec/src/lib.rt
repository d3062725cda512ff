//! Messages as bytes: the one frame of each message in either layout, the first rule that bytes break which
//! are not a
//! frame, and the laws of frames, for every schema and every list of bytes (docs/frames.md).
#![tactic(auto)]

mod decoding;
mod encoding;
mod fault;
mod header;
mod laws;
mod parts;
mod payload;
mod reading;
mod values;
mod writing;

pub use decoding::{DecodeResult, decode, decode_old};
pub use encoding::{EncodeFault, encode, frame_size, new_frame};
pub use laws::{
    frames_are_read_again, frames_have_one_spelling, frames_look_at_no_box,
    old_frames_have_new_ones, one_of_three_begins,
};
