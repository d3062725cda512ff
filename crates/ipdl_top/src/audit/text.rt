//! The audit of a text.
ghost use Rattle.std.specs.Prelude.{◌≡◌, ◌≤◌, IfOk, length};
ghost use Rattle.handler_script.specs.Valid.{IsValid};
ghost use Rattle.ipdl_base.specs.Sound.{IsSound};
ghost use Rattle.script_steps.specs.Choices.{beginning_of};
ghost use Rattle.transcripts.specs.TextLines.{text_lines};
ghost use Rattle.transcripts.specs.Compared.{most_text_bytes};
ghost use Rattle.world_core.specs.Replayed.{IsReplayed};
ghost use Rattle.world_core.specs.Worlds.{most_events};
ghost use Rattle.ipdl_top.specs.Audited.{IsAudited, IsFew, audit_by, audited_setting};

use crate::audit::outcome::Audit;
use handler_script::Script;
use ipdl_base::Schema;
use std::alloc::{AllocError, Global};
use world_core::{Replay, World};

/// Returns whether a text is what a run of a script may print that has no stop, or the first of its lines at which it is not
/// (docs/audit.md). Keeps the run and one line of the text in memory. Fails only if memory runs out.
pub fn audit_text(
    alloc: Global,
    schema: &Schema,
    script: &Script,
    limit: u32,
    text: &[u8],
) -> Result<Audit, AllocError>
    requires sound { IsSound schema.now }
    requires valid { IsValid schema.now script.now }
    requires small { limit ≤ most_events }
    requires few { length text.now ≤ most_text_bytes }
    ensures { IfOk result (IsAudited (audited_setting schema.now script.now limit) text.now) }
{
    let mut world = World::open(alloc, schema, script, None, limit)?;
    let found = audit_from(alloc, &mut world, text);
    drop(world);
    found
}

/// Returns what an audit finds, by a world as it begins. Fails only if memory runs out.
fn audit_from(alloc: Global, world: &mut World<'_>, text: &[u8]) -> Result<Audit, AllocError>
    requires sound { IsSound world.old.setting.schema }
    requires valid { IsValid world.old.setting.schema world.old.setting.script }
    requires small { world.old.setting.limit ≤ most_events }
    requires begins { world.old.state ≡ beginning_of world.old.setting }
    requires few { length text.now ≤ most_text_bytes }
    ensures { IfOk result (IsAudited world.old.setting text.now) }
{
    let replay = world.replay(alloc, text)?;
    Ok(audit_by(replay))
}

/// Returns what an audit finds, by how far a run prints the lines of the text.
fn audit_by(replay: Replay) -> Audit
    requires { IsFew replay }
    ensures { result ≡ audit_by replay }
{
    match replay {
        Replay::Complete(events) => Audit::Legal(events),
        Replay::Incomplete(lines) => Audit::Early(lines + 1),
        Replay::Diverged(lines) => Audit::NoStep(lines + 1),
    }
}
