//! The name of a new actor, made before anything changes.
ghost use Rattle.std.specs.Prelude.{◌≡◌, ◌+◌, ◌<◌, ◌≤◌, length, option_map, IfOk};
ghost use Rattle.std.specs.List.{AllByRecursion};
ghost use Rattle.channel_model.specs.Fitting.{FitsNaming};
ghost use Rattle.ipdl_base.specs.Sound.{IsSound};
ghost use Rattle.channel_core.specs.NewNames.{IsReadyName, HasRoomFor, names_after, output_after};

use end_parts::{EndOutput, NameContent, NameEntries};
use end_steps::{DestroyedReply, destroyed_by_name, push_destroyed};
use ipdl_base::{Name, Schema, Side};
use std::alloc::{AllocError, Global};

/// A name for a new actor.
#[derive(Drop)]
pub(crate) struct ReadyName {
    held: Name,
    /// The answer for the resolver that the name had.
    destroyed: Option<DestroyedReply>,
}

/// Makes the name of a new actor, if it gets one, at an open end. Fails only if memory runs out.
pub(crate) fn make_name(
    alloc: Global,
    schema: &Schema,
    name: Option<&Name>,
    names: &mut NameEntries,
) -> Result<Option<ReadyName>, AllocError>
    requires sound { IsSound schema.now }
    requires fits { AllByRecursion (FitsNaming schema.now) names.old.names }
    ensures names { names.new.names ≡ names.old.names }
    ensures ready { IfOk result (λ ready. IsReadyName schema.now (option_map (λ n. n.now) name.entry) names.new ready) }
{
    match name {
        None => Ok(None),
        Some(name) => {
            let held = name.copy(alloc)?;
            let destroyed = destroyed_by_name(alloc, schema, true, name, names)?;
            names.reserve()?;
            Ok(Some(ReadyName { held, destroyed }))
        }
    }
}

/// Binds a name that was made, if there is one, to the actor of an id.
pub(crate) fn give_name(
    side: Side,
    ready: Option<ReadyName>,
    id: i32,
    names: &mut NameEntries,
    out: &mut EndOutput,
)
    requires room { HasRoomFor ready names.old }
    requires lines { 0 < out.old.line_spare }
    requires packets { length out.old.frames + 1 ≤ out.old.packet_spare }
    ensures names { names.new.names ≡ names_after ready id names.old.names }
    ensures out { out.new ≡ output_after side ready out.old }
{
    match ready {
        None => {}
        Some(ReadyName { held, destroyed }) => {
            push_destroyed(side, destroyed, out);
            names.hold(held, NameContent::Actor(id));
        }
    }
}
