//! Laws of lists of frames.
ghost use Rattle.schema_laws.specs.Frames.{FramesAlike, OneListOfFrames, OneText};

use value_types::boxes_say_nothing;

/// The law of boxes: under schemas that are the same except for where their boxes are, bytes are the same
/// frames, and frames have the same lines and the same new frames.
pub fn frames_alike()
    ensures { FramesAlike }
{}

/// The law of the one list: under a sound schema bytes are at most one list of frames, except for where the
/// boxes of messages are, and it ends in one way.
pub fn one_list_of_frames()
    ensures { OneListOfFrames }
{}

/// The law of the one text: under schemas that are the same except for where their boxes are, and of which
/// one is sound, bytes have the same lines, the same new frames and the same fault, whichever list of frames
/// these are taken from.
pub fn frames_have_one_text()
    ensures { OneText }
{
    boxes_say_nothing();
}
