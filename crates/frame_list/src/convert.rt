//! Writes new frames.
ghost use Rattle.std.specs.Prelude.{◌≡◌, ◌++◌, OnOk};
ghost use Rattle.ipdl_base.specs.Sound.{IsSound};
ghost use Rattle.frame_list.specs.Converted.{new_frame};
ghost use Rattle.frame_list.specs.Steps.{HasNewFrame};

use crate::list::PlacedMessage;
use ipdl_base::Schema;
use std::alloc::{AllocError, Global};
use value_codec::{EncodeFault, encode};

/// Appends the new frame of a message that has one.
pub(crate) fn push_new(
    out: &mut Vec<u8>,
    alloc: Global,
    schema: &Schema,
    placed: &PlacedMessage,
) -> Result<(), AllocError>
    requires sound { IsSound schema.now }
    requires new { HasNewFrame schema.now placed.now.message }
    ensures { OnOk result (out.new.items ≡ out.old.items ++ new_frame schema.now placed.now) }
{
    match encode(alloc, schema, &placed.message, out) {
        Ok(()) => Ok(()),
        Err(EncodeFault::TooLarge(_)) => unreachable!(),
        Err(EncodeFault::NoMemory) => Err(AllocError),
    }
}
