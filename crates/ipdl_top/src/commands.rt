//! The answer to a command, by what was found of the files that it reads.
ghost use Rattle.std.specs.Prelude.{ℕ, IfOk, List};
ghost use Rattle.command_words.specs.Command.{CommandOf, view_of};
ghost use Rattle.ipdl_top.specs.CommandAnswer.{AnswersTo};
ghost use Rattle.ipdl_top.specs.FileViews.{FileViews};
ghost use Rattle.ipdl_top.specs.CommandFiles.{files_by};
ghost use Rattle.ipdl_top.specs.FilesFound.{AreFound};

use crate::answer::CommandAnswer;
use crate::audit::answer_audit;
use crate::compile::answer_compile;
use crate::explore::answer_explore;
use crate::feed::answer_feed;
use crate::frames::answer_frames;
use crate::generation::case_request;
use crate::reading::FoundFiles;
use crate::relay::answer_relay;
use crate::rendering::Rendering;
use crate::run::{answer_run, run_request};
use crate::waits::answer_waits;
use command_words::Command;
use std::alloc::{AllocError, Global};
use world_core::{Driver, Relay};

/// Answers a command by what was found of the files that it reads. Fails only if memory runs out.
pub fn answer_command<D: Driver, Q: Relay>(
    alloc: Global,
    command: &Command,
    found: FoundFiles,
    driver: &mut D,
    relay: &mut Q,
) -> Result<CommandAnswer, AllocError>
    requires said { (words : List (List ℕ)) × CommandOf words command.now }
    requires found { (seen : FileViews) × AreFound (files_by (view_of command.now)) seen found }
    requires ready { D.ready driver.old }
    requires relay_ready { Q.ready relay.old }
    ensures { IfOk result (λ answer. (seen : FileViews) → AreFound (files_by (view_of command.now)) seen found
        → AnswersTo (D.Gives driver.old) (Q.Gives relay.old) seen (view_of command.now) answer) }
{
    let FoundFiles {
        checked,
        script,
        input,
    } = found;
    match command {
        Command::Compile { .. } => answer_compile(alloc, checked),
        Command::Frames(_, options) => answer_frames(alloc, checked, options, &input),
        Command::Waits(sources) => answer_waits(alloc, checked, sources.file.as_str()),
        Command::Run(sources, options) => {
            let request = run_request(sources, options, Rendering::Transcript);
            answer_run(alloc, checked, &request, &script, driver)
        }
        Command::Gen { rounds, actors } => {
            let request = case_request(*rounds, *actors);
            answer_run(alloc, checked, &request, &script, driver)
        }
        Command::Feed(sources, options) => {
            answer_feed(
                alloc,
                checked,
                sources.file.as_str(),
                options,
                &script,
                &input,
            )
        }
        Command::Audit(sources, options) => {
            answer_audit(
                alloc,
                checked,
                sources.file.as_str(),
                options,
                &script,
                &input,
            )
        }
        Command::Relay(sources, options) => {
            answer_relay(
                alloc,
                checked,
                sources.file.as_str(),
                options,
                &script,
                relay,
            )
        }
        Command::Chart(sources, options) => {
            let request = run_request(sources, options, Rendering::Chart);
            answer_run(alloc, checked, &request, &script, driver)
        }
        Command::Explore(sources, options) => {
            answer_explore(alloc, checked, sources.file.as_str(), options, &script)
        }
    }
}
