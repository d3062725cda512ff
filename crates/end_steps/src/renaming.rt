//! New bindings of names, and the answers for the resolvers that they destroy.
ghost use Rattle.std.specs.Prelude.{◌≡◌, ◌+◌, ◌<◌, ◌≤◌, length, IfOk, OnOk};
ghost use Rattle.std.specs.List.{AllByRecursion};
ghost use Rattle.channel_model.specs.Fitting.{FitsNaming, FitsPromised};
ghost use Rattle.channel_model.specs.Names.{held_by_name};
ghost use Rattle.ipdl_base.specs.Sound.{IsSound};
ghost use Rattle.end_steps.specs.Renamings.{destroyed_frame, destroyed_of, with_destroyed, IsNewName};
ghost use Rattle.end_parts.specs.Replies.{answered_of};

use end_parts::{AnsweredRequest, EndOutput, NameEntries, Packet, frame_of, reply_to};
use ipdl_base::{Body, Items, Line, Name, Reason, Schema, Side, What};
use std::alloc::{AllocError, Global};

/// The answer to a request whose resolver is destroyed: the fault ResolverDestroyed, in its frame.
#[derive(Drop)]
pub struct DestroyedReply {
    /// The number of the request.
    pub seq: i32,
    pub frame: Items<u8>,
}

/// Returns the answer to a request whose resolver is destroyed. Fails only if memory runs out.
pub fn destroyed_reply(
    alloc: Global,
    schema: &Schema,
    request: &AnsweredRequest,
) -> Result<DestroyedReply, AllocError>
    requires sound { IsSound schema.now }
    requires fits { FitsPromised schema.now (answered_of request.now) }
    ensures { IfOk result (λ reply. reply ≡ destroyed_frame schema.now (answered_of request.now)) }
{
    let message = reply_to(request, Body::Fault(Reason::ResolverDestroyed));
    Ok(DestroyedReply {
        seq: request.seq,
        frame: frame_of(alloc, schema, &message)?,
    })
}

/// Returns the answer for the resolver of a name, if it has one and the end is open. Fails only if
/// memory runs out.
pub fn destroyed_by_name(
    alloc: Global,
    schema: &Schema,
    is_open: bool,
    name: &Name,
    names: &NameEntries,
) -> Result<Option<DestroyedReply>, AllocError>
    requires sound { IsSound schema.now }
    requires fits { AllByRecursion (FitsNaming schema.now) names.now.names }
    ensures { IfOk result (λ reply. reply ≡ destroyed_of is_open schema.now (held_by_name name.now names.now.names)) }
{
    if !is_open {
        return Ok(None);
    }
    match names.resolver_held(name) {
        None => Ok(None),
        Some(request) => Ok(Some(destroyed_reply(alloc, schema, &request)?)),
    }
}

/// Prints and appends the answer for a destroyed resolver, if there is one.
pub fn push_destroyed(side: Side, reply: Option<DestroyedReply>, out: &mut EndOutput)
    requires lines { 0 < out.old.line_spare }
    requires packets { length out.old.frames + 1 ≤ out.old.packet_spare }
    ensures { out.new ≡ with_destroyed side out.old reply }
{
    match reply {
        None => {}
        Some(DestroyedReply { seq, frame }) => {
            out.push_line(Line {
                side,
                what: What::AnswerFault(seq, Reason::ResolverDestroyed),
            });
            out.put(Packet::Bytes(frame));
        }
    }
}

/// What is made before a name is bound anew.
#[derive(Drop)]
pub struct NewName {
    /// The name for the line.
    pub shown: Name,
    /// The name that is bound.
    pub held: Name,
    /// The answer for the resolver that the name had, if the end is open.
    pub destroyed: Option<DestroyedReply>,
}

/// Makes all that a new binding of a name needs, with room for two lines and one packet. Fails only
/// if memory runs out.
pub fn new_name(
    alloc: Global,
    schema: &Schema,
    is_open: bool,
    name: &Name,
    names: &mut NameEntries,
    out: &mut EndOutput,
) -> Result<NewName, AllocError>
    requires sound { IsSound schema.now }
    requires fits { AllByRecursion (FitsNaming schema.now) names.old.names }
    ensures names { names.new.names ≡ names.old.names }
    ensures same { out.new ≡ record out.old { line_spare = out.new.line_spare; packet_spare = out.new.packet_spare } }
    ensures more_lines { out.old.line_spare ≤ out.new.line_spare }
    ensures more_packets { out.old.packet_spare ≤ out.new.packet_spare }
    ensures ok { IfOk result (λ new. IsNewName schema.now is_open name.now new names.new out.old out.new) }
{
    let shown = name.copy(alloc)?;
    let held = name.copy(alloc)?;
    let destroyed = destroyed_by_name(alloc, schema, is_open, name, names)?;
    names.reserve()?;
    out.reserve(2, 1)?;
    Ok(NewName {
        shown,
        held,
        destroyed,
    })
}
