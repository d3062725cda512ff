//! What the program answers.
ghost use Rattle.std.specs.Prelude.{◌≡◌, IfOk, IsOkUnless};

use crate::help::text_on;
use crate::report::text_of_report;
use crate::status::Status;
use command_words::Topic;
use ipdl_base::{Failure, Items, Report};
use std::alloc::{AllocError, Global};

/// How the program is called.
const USAGE: &[u8] =
    b"usage: ipdl [-s LIST] [--path DIRS] FILES\n       ipdl run [-s LIST] [--path DIRS] [--schedule WORD] [--limit N] [--die SIDE:K] SCRIPT FILE\n       ipdl frames [-s LIST] [--path DIRS] [--to 2] FILE FRAMES\n       ipdl gen [--actors A] N\n       ipdl feed [-s LIST] [--path DIRS] [--limit N] --side SIDE SCRIPT FILE FRAMES\n       ipdl relay [-s LIST] [--path DIRS] [--die SIDE:K] [--limit N] SCRIPT FILE\n       ipdl audit [-s LIST] [--path DIRS] [--limit N] SCRIPT FILE TRANSCRIPT\n       ipdl waits [-s LIST] [--path DIRS] FILE\n       ipdl chart [-s LIST] [--path DIRS] [--schedule WORD] [--limit N] [--die SIDE:K] SCRIPT FILE\n       ipdl explore [-s LIST] [--path DIRS] [--limit N] [--ways M] SCRIPT FILE\n       ipdl help [COMMAND]\n       ipdl version\n";

/// What the program answers: how it ends, and the texts that it writes.
#[derive(Debug, Drop)]
pub struct CommandAnswer {
    /// How the program ends.
    pub status: Status,
    /// The text for standard output.
    pub out: Items<u8>,
    /// The text for standard error.
    pub err: Items<u8>,
}

impl CommandAnswer {
    ghost use Rattle.ipdl_top.specs.CommandAnswer.{table_answer, usage_answer};
    ghost use Rattle.ipdl_top.specs.Report.{broken_answer};
    ghost use Rattle.ipdl_top.specs.Help.{topic_text};
    ghost use Rattle.ipdl_top.specs.Inputs.{bad_input_answer};

    /// Returns the answer of a command that did its work: this text.
    pub fn of_table(alloc: Global, text: Vec<u8>) -> CommandAnswer
        ensures { result ≡ table_answer text.items }
    {
        CommandAnswer {
            status: Status::Done,
            out: Items::from_vec(text),
            err: Items::from_vec(Vec::new(alloc)),
        }
    }

    /// Returns the answer that an input file is not what the command reads, with this status: the text before the fault, and the
    /// line of the fault.
    pub fn of_bad_input(status: Status, before: Vec<u8>, line: Vec<u8>) -> CommandAnswer
        ensures { result ≡ bad_input_answer status before.items line.items }
    {
        CommandAnswer {
            status,
            out: Items::from_vec(before),
            err: Items::from_vec(line),
        }
    }

    /// Returns the answer that rules are broken, of files or of a script as the status says: the text of the report. Fails only
    /// if memory runs out.
    pub fn of_report(
        alloc: Global,
        status: Status,
        report: &Report,
    ) -> Result<CommandAnswer, AllocError>
        ensures { IfOk result (λ answer. answer ≡ broken_answer status report.now) }
    {
        let text = text_of_report(alloc, report)?;
        Ok(CommandAnswer {
            status,
            out: Items::from_vec(Vec::new(alloc)),
            err: Items::from_vec(text),
        })
    }

    /// Returns the answer to words that ask for help or for the version: the text on what they ask about. Fails only if memory
    /// runs out.
    pub fn of_topic(alloc: Global, topic: Topic) -> Result<CommandAnswer, Failure>
        ensures answer { IfOk result (λ answer. answer ≡ table_answer (topic_text topic)) }
        ensures memory { IsOkUnless result Failure.NoMemory }
    {
        let text = Vec::from_slice(alloc, text_on(topic).as_bytes())?;
        Ok(CommandAnswer::of_table(alloc, text))
    }

    /// Returns the answer to words that are not a command and do not ask for help: how the program is called. Fails only if memory
    /// runs out.
    pub fn of_no_command(alloc: Global) -> Result<CommandAnswer, Failure>
        ensures answer { IfOk result (λ answer. answer ≡ usage_answer) }
        ensures memory { IsOkUnless result Failure.NoMemory }
    {
        let text = Vec::from_slice(alloc, USAGE)?;
        Ok(CommandAnswer {
            status: Status::Usage,
            out: Items::from_vec(Vec::new(alloc)),
            err: Items::from_vec(text),
        })
    }
}
