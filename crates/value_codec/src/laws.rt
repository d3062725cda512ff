//! Laws of frames, for every schema, every message and all bytes.
ghost use Rattle.value_codec.specs.Laws.{FramesLookAtNoBox, OneSpelling, ReadAgain, OneOfThreeBegins, OldHasNew};

/// The law of the spelling: a message has at most one frame in a layout, with the number of bytes that its
/// size gives.
pub fn frames_have_one_spelling()
    ensures { OneSpelling }
{}

/// The law of the round trip: decoding a frame gives its message again, whatever bytes follow.
pub fn frames_are_read_again()
    ensures { ReadAgain }
{}

/// The law of the three cases: bytes begin with a frame, or are too short, or break one rule at one place;
/// and exactly one of these holds.
pub fn one_of_three_begins()
    ensures { OneOfThreeBegins }
{}

/// The law of the two layouts: the message of an old frame has a new frame.
pub fn old_frames_have_new_ones()
    ensures { OldHasNew }
{}

/// The law of boxes: the frame of a message does not depend on where its boxes are.
pub fn frames_look_at_no_box()
    ensures { FramesLookAtNoBox }
{}
