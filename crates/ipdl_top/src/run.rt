//! The commands that run a script.
ghost use Rattle.std.specs.Prelude.{◌≡◌, ◌≤◌, ℕ, IfOk, List, Option, map, string_bytes};
ghost use Rattle.charts.specs.Chart as chart;
ghost use Rattle.command_words.specs.Command.{run_course};
ghost use Rattle.end_parts.specs.PlainLines.{plain_line};
ghost use Rattle.std.specs.Option.{option_copied};
ghost use Rattle.world_core.specs.Turns.{StandsAs};
ghost use Rattle.world_core.specs.WorldView.{WorldView};
ghost use Rattle.world_core.specs.Worlds.{IsCase, IsLawful, most_events};
ghost use Rattle.ipdl_base.specs.Sound.{IsSound};
ghost use Rattle.ipdl_top.specs.Ended.{IsEndedAnswer, ending_by};
ghost use Rattle.ipdl_top.specs.Run.{SaysHistory, SaysRun, rendered, run_answer};
ghost use Rattle.ipdl_top.specs.RunSteps.{IsMadeUnless, course_of};
ghost use Rattle.ipdl_top.specs.Steps.{HasTop, IsHeld, IsSmall, IsSoundChecked, IsToldOf};

use crate::answer::CommandAnswer;
use crate::checked::CheckResult;
use crate::ending::{answer_with, spent_of, with_ending};
use crate::exit::keep_until_exit;
use crate::pipeline::{ByScript, WithScript, answer_by_schema};
use crate::rendering::Rendering;
use crate::scripts::ScriptFile;
use charts::chart_text;
use command_words::{RunOptions, Sources};
use generated_case::{Counts, summary_text};
use handler_script::Script;
use history::History;
use ipdl_base::{FileBytes, Schema, Side};
use order_statements::{histories_are_lawful, histories_give_what_they_owe, histories_keep_order};
use progress_laws::{histories_are_weighed, still_worlds_rest};
use relay_history::sides_obey_alone;
use schedules::{Stop, Turn};
use script_steps::choices_are_runs;
use std::alloc::{AllocError, Global};
use value_types::boxes_say_nothing;
use world_core::{Driver, RunAnswer, World};

/// A script to run, and how.
#[derive(Drop)]
pub struct RunRequest<'w> {
    /// The name of the file of the top protocol.
    pub file: &'w str,
    /// The name of the script.
    pub script: &'w str,
    /// The turns of the sides, if they are given.
    pub schedule: Option<&'w [Turn]>,
    /// The most events of a side.
    pub limit: u32,
    /// The death of an end, if one is given.
    pub death: Option<Stop>,
    /// What is printed of the history.
    pub rendering: Rendering,
}

/// Returns how a command runs its script, by what it prints of the history.
pub fn run_request<'c>(
    sources: &'c Sources,
    options: &'c RunOptions,
    rendering: Rendering,
) -> RunRequest<'c>
    ensures course { course_of result ≡ run_course options.entry.now }
    ensures script { result.script.now ≡ string_bytes options.entry.now.script }
    ensures file { result.file.now ≡ string_bytes sources.entry.now.file }
    ensures limit { result.limit ≡ options.entry.now.limit }
    ensures rendering { result.rendering ≡ rendering }
{
    RunRequest {
        file: sources.file.as_str(),
        script: options.script.as_str(),
        schedule: options.schedule.as_deref(),
        limit: options.limit,
        death: options.death,
        rendering,
    }
}

/// Runs a world by a word of turns, if one is given, and else by the driver.
fn driven<'s, D: Driver>(
    world: World<'s>,
    schedule: Option<&[Turn]>,
    driver: &mut D,
) -> (World<'s>, RunAnswer)
    requires ready { D.ready driver.old }
    ensures made { IsMadeUnless (D.Gives driver.old) (option_copied schedule.entry) world.entry result.0 result.1 }
    ensures same { result.0.setting ≡ world.entry.setting }
    ensures stands { StandsAs result.0 result.1 }
    ensures case { IsCase result.0 }
    ensures laws { IsLawful result.0 }
{
    match schedule {
        None => driver.drive(world),
        Some(word) => {
            let mut world = world;
            let ending = world.run_schedule(word);
            (world, ending)
        }
    }
}

/// Returns the picture of a history and of how its run ended. Fails only if memory runs out.
fn picture_of(
    alloc: Global,
    schema: &Schema,
    history: &History,
    spent: Option<Side>,
) -> Result<Vec<u8>, AllocError>
    requires { IsSound schema.now }
    ensures { IfOk result (λ text. text.items ≡ chart.chart_text schema.now (map plain_line history.now.lines) spent) }
{
    boxes_say_nothing();
    chart_text(alloc, schema, history.lines(), spent)
}

/// Returns what is requested of the history of a world of this schema, and of how its run ended. No other text is built. Fails
/// only if memory runs out.
fn text_of_history(
    alloc: Global,
    schema: &Schema,
    world: &World<'_>,
    rendering: Rendering,
    spent: Option<Side>,
) -> Result<Vec<u8>, AllocError>
    requires sound { IsSound schema.now }
    requires about { world.now.setting.schema ≡ schema.now }
    ensures { IfOk result (λ text. text.items ≡ rendered rendering schema.now world.now.state.lines (ending_by spent)) }
{
    match rendering {
        Rendering::Transcript => {
            let transcript = world.transcript(alloc)?;
            with_ending(transcript, spent)
        }
        Rendering::Summary(rounds, actors) => {
            let summary = summary_text(alloc, rounds, actors, &Counts::of(world.history()))?;
            with_ending(summary, spent)
        }
        Rendering::Chart => picture_of(alloc, schema, world.history(), spent),
    }
}

/// Returns the answer by a world of this schema and how its run ended. If memory ran out in the run, no text is built. Fails
/// only if memory runs out, there or in the run.
fn answer_of_history(
    alloc: Global,
    schema: &Schema,
    world: &World<'_>,
    rendering: Rendering,
    ending: RunAnswer,
) -> Result<CommandAnswer, AllocError>
    requires sound { IsSound schema.now }
    requires about { world.now.setting.schema ≡ schema.now }
    ensures { IfOk result (IsEndedAnswer (run_answer rendering schema.now world.now.state.lines) ending) }
{
    let spent = spent_of(ending)?;
    let out = text_of_history(alloc, schema, world, rendering, spent)?;
    Ok(answer_with(alloc, out, spent))
}

/// Returns the answer by a world of this schema, which is kept until the process ends, and how its run ended. Fails only if
/// memory runs out, there or in the run.
fn world_answer(
    alloc: Global,
    schema: &Schema,
    world: World<'_>,
    rendering: Rendering,
    ending: RunAnswer,
) -> Result<CommandAnswer, AllocError>
    requires sound { IsSound schema.now }
    requires about { world.setting.schema ≡ schema.now }
    ensures { IfOk result (IsEndedAnswer (run_answer rendering schema.now world.entry.state.lines) ending) }
{
    let answer = answer_of_history(alloc, schema, &world, rendering, ending);
    keep_until_exit(world);
    answer
}

/// A script to run, and the driver that runs it.
#[derive(Drop)]
struct RunCommand<'w, D> {
    request: &'w RunRequest<'w>,
    driver: &'w mut D,
}

impl<'w, D: Driver> ByScript for RunCommand<'w, D> {
    ghost Ready = { λ c. (c.request.now.limit ≤ most_events) × D.ready c.driver.now };

    ghost Says = { λ c schema script. SaysHistory (D.Gives c.driver.now) c.request.now.rendering (course_of c.request.now) schema script };

    fn by_script(
        self,
        alloc: Global,
        schema: &Schema,
        script: &Script,
    ) -> Result<CommandAnswer, AllocError> {
        choices_are_runs();
        histories_are_lawful();
        histories_keep_order();
        histories_give_what_they_owe();
        still_worlds_rest();
        histories_are_weighed();
        sides_obey_alone();
        let RunCommand { request, driver } = self;
        let world = World::open(alloc, schema, script, request.death, request.limit)?;
        let (world, ending) = driven(world, request.schedule, driver);
        world_answer(alloc, schema, world, request.rendering, ending)
    }
}

/// Answers a command that runs a script: the report on the files, or the rules that the script breaks, or what is requested of
/// a history of both ends and of how the run ended. Fails only if memory runs out.
pub fn answer_run<D: Driver>(
    alloc: Global,
    checked: CheckResult,
    request: &RunRequest<'_>,
    text: &FileBytes,
    driver: &mut D,
) -> Result<CommandAnswer, AllocError>
    requires small { IsSmall text.now }
    requires sound { IsSoundChecked checked }
    requires top { HasTop request.now.file.now checked }
    requires limit { request.now.limit ≤ most_events }
    requires ready { D.ready driver.old }
    ensures { IfOk result (λ answer. (bytes : Option (List ℕ)) → IsHeld bytes text.now
        → IsToldOf (SaysRun (D.Gives driver.old) request.now.rendering (course_of request.now) request.now.script.now bytes request.now.file.now) checked answer) }
{
    let script = ScriptFile {
        file: request.file,
        name: request.script,
        found: text,
    };
    let command = RunCommand { request, driver };
    answer_by_schema(alloc, checked, WithScript { script, command })
}
