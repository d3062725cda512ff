//! The command that lists the ways of a script.
ghost use Rattle.std.specs.Prelude.{◌≡◌, ◌≤◌, ℕ, IfOk, List, Option, string_bytes};
ghost use Rattle.command_words.specs.Command.{explore_course};
ghost use Rattle.explorations.specs.Seen.{exploration_seen};
ghost use Rattle.handler_script.specs.Valid.{IsValid};
ghost use Rattle.ipdl_base.specs.Sound.{IsSound};
ghost use Rattle.world_core.specs.Worlds.{most_events};
ghost use Rattle.ipdl_top.specs.Explore.{SaysExplore, SaysExplored, explore_answer, explore_status};
ghost use Rattle.ipdl_top.specs.Steps.{HasTop, IsHeld, IsSmall, IsSoundChecked, IsToldOf};

use crate::answer::CommandAnswer;
use crate::checked::CheckResult;
use crate::pipeline::{ByScript, WithScript, answer_by_schema};
use crate::scripts::ScriptFile;
use crate::status::Status;
use command_words::ExploreOptions;
use exploration_laws::{ways_are_run, ways_cover_texts};
use explorations::{Exploration, exploration_text};
use explorer::explore;
use handler_script::Script;
use ipdl_base::{FileBytes, Items, Schema};
use std::alloc::{AllocError, Global};

/// Returns how the command ends, by whether all ways are listed.
fn status_of(whole: bool) -> Status
    ensures { result ≡ explore_status whole }
{
    if whole { Status::Done } else { Status::Spent }
}

/// Returns the answer that lists what an exploration finds. Fails only if memory runs out.
fn explored_answer(alloc: Global, exploration: &Exploration) -> Result<CommandAnswer, AllocError>
    ensures { IfOk result (λ answer. answer ≡ explore_answer (exploration_seen exploration.now)) }
{
    let text = exploration_text(alloc, exploration)?;
    Ok(CommandAnswer {
        status: status_of(exploration.whole),
        out: Items::from_vec(text),
        err: Items::from_vec(Vec::new(alloc)),
    })
}

/// Explores a script: finds its ways, and lists them. Fails only if memory runs out.
fn explore_script(
    alloc: Global,
    schema: &Schema,
    script: &Script,
    options: &ExploreOptions,
) -> Result<CommandAnswer, AllocError>
    requires sound { IsSound schema.now }
    requires valid { IsValid schema.now script.now }
    requires small { options.now.limit ≤ most_events }
    ensures { IfOk result (SaysExplored (explore_course options.now) schema.now script.now) }
{
    ways_are_run();
    ways_cover_texts();
    let exploration = explore(alloc, schema, script, options.limit, options.ways)?;
    explored_answer(alloc, &exploration)
}

/// The command that lists the ways of a script.
#[derive(Drop)]
struct ExploreCommand<'w> {
    options: &'w ExploreOptions,
}

impl<'w> ByScript for ExploreCommand<'w> {
    ghost Ready = { λ c. c.options.now.limit ≤ most_events };

    ghost Says = { λ c schema script. SaysExplored (explore_course c.options.now) schema script };

    fn by_script(
        self,
        alloc: Global,
        schema: &Schema,
        script: &Script,
    ) -> Result<CommandAnswer, AllocError> {
        explore_script(alloc, schema, script, self.options)
    }
}

/// Answers the command that lists the ways of a script: the report on the files, or the rules that the script breaks, or all that
/// its runs may come to (docs/explore.md). Fails only if memory runs out.
pub fn answer_explore(
    alloc: Global,
    checked: CheckResult,
    file: &str,
    options: &ExploreOptions,
    script: &FileBytes,
) -> Result<CommandAnswer, AllocError>
    requires small { IsSmall script.now }
    requires sound { IsSoundChecked checked }
    requires top { HasTop file.now checked }
    requires limit { options.now.limit ≤ most_events }
    ensures { IfOk result (λ answer. (held : Option (List ℕ)) → IsHeld held script.now
        → IsToldOf (SaysExplore (explore_course options.now) (string_bytes options.now.script) held file.now) checked answer) }
{
    let script = ScriptFile {
        file,
        name: options.script.as_str(),
        found: script,
    };
    answer_by_schema(
        alloc,
        checked,
        WithScript {
            script,
            command: ExploreCommand { options },
        },
    )
}
