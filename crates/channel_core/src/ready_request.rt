//! The frame and the line of a request that is sent, made before anything changes, and its wait.
ghost use Rattle.std.specs.Prelude.{◌≡◌, ◌+◌, ◌<◌, ◌≤◌, true, length, IfOk, OnOk};
ghost use Rattle.channel_model.specs.Numbers.{is_sync_row};
ghost use Rattle.channel_model.specs.Sends.{send_line};
ghost use Rattle.end_parts.specs.PlainLines.{plain_what};
ghost use Rattle.ipdl_base.specs.Plain.{plain_body, plain_message};
ghost use Rattle.ipdl_base.specs.Sound.{IsSound};
ghost use Rattle.value_types.specs.Fits.{Fits};
ghost use Rattle.end_steps.specs.SentRequests.{stack_after, values_carried};
ghost use Rattle.channel_core.specs.Sending.{IsReady};

use end_parts::{EndOutput, StackEntries, frame_of};
use end_steps::send_line;
use ipdl_base::{Items, Message, MessageRow, Schema, Semantics, What};
use nesting_core::Head;
use std::alloc::{AllocError, Global};

/// Returns the frame of a request, with room for `lines` lines and `packets` packets. Fails only if
/// memory runs out.
pub(crate) fn make_frame(
    alloc: Global,
    schema: &Schema,
    message: &Message,
    lines: usize,
    packets: usize,
    out: &mut EndOutput,
) -> Result<Items<u8>, AllocError>
    requires sound { IsSound schema.now }
    requires fits { Fits schema.now message.now }
    ensures ready { IfOk result (λ frame. IsReady schema.now (plain_message message.now) frame) }
    ensures same { out.new ≡ record out.old { line_spare = out.new.line_spare; packet_spare = out.new.packet_spare } }
    ensures more_lines { out.old.line_spare ≤ out.new.line_spare }
    ensures more_packets { out.old.packet_spare ≤ out.new.packet_spare }
    ensures lines { OnOk result (out.old.lines_owed + lines ≤ out.new.line_spare) }
    ensures packets { OnOk result (length out.old.frames + 1 + packets ≤ out.new.packet_spare) }
{
    let frame = frame_of(alloc, schema, message)?;
    out.reserve(lines, packets)?;
    Ok(frame)
}

/// Returns the line of a request whose message is kept, with a copy of its values. Fails only if
/// memory runs out.
pub(crate) fn copied_line(
    alloc: Global,
    row: &MessageRow,
    message: &Message,
) -> Result<What, AllocError>
    ensures { IfOk result (λ what. plain_what what ≡ send_line row.now (plain_message message.now) (values_carried (plain_body message.now.body))) }
{
    Ok(send_line(row, message.copy(alloc)?))
}

/// Pushes the wait of a sync request onto the stack.
pub(crate) fn push_wait(row: &MessageRow, message: &Message, stack: &mut StackEntries)
    requires { is_sync_row row.now ≡ true → length stack.old < 63 }
    ensures { stack.new ≡ stack_after row.now message.now stack.old }
{
    if row.semantics == Semantics::Sync {
        let head = Head {
            sync: true,
            level: row.level,
            seq: message.seq,
            transaction: message.transaction,
        };
        stack.push_wait(head, message.route, message.number);
    }
}
