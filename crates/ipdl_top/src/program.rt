//! The program: it reads its words, then the files that they name, and writes the answer.
ghost use Rattle.std.specs.Prelude.{◌≡◌, ◌≢◌, ◌⊎◌, ℕ, Err, IfOk, IsOkUnless, List, map, string_bytes};
ghost use Rattle.command_words.specs.Command.{CommandOf, IsNoCommand, gen, view_of};
ghost use Rattle.command_words.specs.Gen.{IsGen};
ghost use Rattle.command_words.specs.Topics.{MeanNothing};
ghost use Rattle.file_log.specs.Log.{EndsWithReads};
ghost use Rattle.file_log.specs.Recorded.{files_of, reads_of};
ghost use Rattle.ipdl_base.specs.Outside.{Rose};
ghost use Rattle.ipdl_top.specs.CommandAnswer.{AnswersTo, IsAnswer, IsAnswerWithout, usage_answer};
ghost use Rattle.ipdl_top.specs.FileViews.{ForMap, ForViews};
ghost use Rattle.ipdl_top.specs.Outcome.{IsOutcome, IsOutcomeOfReads, IsStatusOfReads};
ghost use Rattle.ipdl_top.specs.CommandFiles.{generated};
ghost use Rattle.ipdl_top.specs.FilesFound.{AreFound, AreReadable, files_read};
ghost use Rattle.ipdl_top.specs.Written.{WritesAll};

use crate::answer::CommandAnswer;
use crate::command_files::{CommandFiles, files_of_command};
use crate::commands::answer_command;
use crate::generation::read_case;
use crate::reading::{FoundFiles, read_named};
use crate::status::Status;
use crate::write::write_answer;
use command_words::{Command, WordsFault, one_command, read_words, topic_of};
use file_log::RecordedFiles;
use ipdl_base::{Failure, Files, Sink};
use std::alloc::Global;
use world_core::{Driver, Relay};

/// Reads the files of a command. A generated case has its own files, and `files` is not read.
///
/// # Errors
///
/// `Failure::ReadFault` if a read fails, after which nothing more is read, and `Failure::NoMemory` if memory runs out.
fn read_files<F: Files>(
    alloc: Global,
    files: &mut RecordedFiles<F>,
    named: &CommandFiles<'_>,
) -> Result<FoundFiles, Failure>
    requires { AreReadable (files_read named.now) }
    ensures reads { IfOk result (λ found. ForViews (F.known (files_of files.old)) (reads_of files.old) (reads_of files.new)
        (λ seen. AreFound (files_read named.now) seen found)) }
    ensures ended { EndsWithReads result (reads_of files.old) (reads_of files.new) }
    ensures read_fault { result ≡ Err Failure.ReadFault → Rose (F.faults (files_of files.old)) (F.faults (files_of files.new)) }
    ensures unread { (rounds actors : ℕ) → files_read named.now ≡ generated rounds actors → files.new ≡ files.old }
{
    match named {
        CommandFiles::Named(names) => read_named(alloc, files, names),
        CommandFiles::Case(rounds, actors) => read_case(alloc, *rounds, *actors),
    }
}

/// Reads the files of a command, and answers it.
fn answer_by_files<F: Files, D: Driver, Q: Relay>(
    alloc: Global,
    command: &Command,
    files: &mut RecordedFiles<F>,
    driver: &mut D,
    relay: &mut Q,
) -> Result<CommandAnswer, Failure>
    requires said { (words : List (List ℕ)) × CommandOf words command.now }
    requires ready { D.ready driver.old }
    requires relay_ready { Q.ready relay.old }
    ensures reads { IfOk result (λ answer. ForViews (F.known (files_of files.old)) (reads_of files.old) (reads_of files.new)
        (λ seen. AnswersTo (D.Gives driver.old) (Q.Gives relay.old) seen (view_of command.now) answer)) }
    ensures ended { EndsWithReads result (reads_of files.old) (reads_of files.new) }
    ensures read_fault { result ≡ Err Failure.ReadFault → Rose (F.faults (files_of files.old)) (F.faults (files_of files.new)) }
    ensures unread { (rounds actors : ℕ) → view_of command.now ≡ gen rounds actors → files.new ≡ files.old }
{
    let found = read_files(alloc, files, &files_of_command(command))?;
    Ok(answer_command(alloc, command, found, driver, relay)?)
}

/// Answers words that are not a command: they ask for help or for the version, or mean nothing. Fails only if memory runs out.
fn answer_without_command(alloc: Global, words: &[String]) -> Result<CommandAnswer, Failure>
    ensures answer { IfOk result (IsAnswerWithout (map string_bytes words.now)) }
    ensures memory { IsOkUnless result Failure.NoMemory }
{
    match topic_of(words) {
        Some(topic) => CommandAnswer::of_topic(alloc, topic),
        None => CommandAnswer::of_no_command(alloc),
    }
}

/// Answers the words of a call: reads them as a command, and answers the command. Words that are not a command have an answer too.
fn answer_to<F: Files, D: Driver, Q: Relay>(
    alloc: Global,
    words: &[String],
    files: &mut RecordedFiles<F>,
    driver: &mut D,
    relay: &mut Q,
) -> Result<CommandAnswer, Failure>
    requires ready { D.ready driver.old }
    requires relay_ready { Q.ready relay.old }
    ensures reads { IfOk result (λ answer. ForViews (F.known (files_of files.old)) (reads_of files.old) (reads_of files.new)
        (λ seen. IsAnswer (D.Gives driver.old) (Q.Gives relay.old) seen (map string_bytes words.now) answer)) }
    ensures ended { EndsWithReads result (reads_of files.old) (reads_of files.new) }
    ensures no_command { IsNoCommand (map string_bytes words.now) → result ≢ Err Failure.ReadFault }
    ensures read_fault { result ≡ Err Failure.ReadFault → Rose (F.faults (files_of files.old)) (F.faults (files_of files.new)) }
    ensures unread { (rounds actors : ℕ) → IsGen (map string_bytes words.now) rounds actors → files.new ≡ files.old }
    ensures untouched { IsNoCommand (map string_bytes words.now) → files.new ≡ files.old }
{
    one_command();
    match read_words(alloc, words) {
        Ok(command) => answer_by_files(alloc, &command, files, driver, relay),
        Err(WordsFault::Usage) => answer_without_command(alloc, words),
        Err(WordsFault::NoMemory) => Err(Failure::NoMemory),
    }
}

/// Runs the program on its words, which do not contain its own name (docs/theorems.md, "The program"). Returns how the program
/// ends.
pub fn ipdl<F: Files, O: Sink, E: Sink, D: Driver, Q: Relay>(
    alloc: Global,
    words: &[String],
    files: &mut RecordedFiles<F>,
    out: &mut O,
    err: &mut E,
    driver: &mut D,
    relay: &mut Q,
) -> Status
    requires ready { D.ready driver.old }
    requires relay_ready { Q.ready relay.old }

    // The status is Usage exactly if the words are not a command and ask for nothing, unless a write fails or memory runs out.
    ensures usage { result ≡ Status.Usage → MeanNothing (map string_bytes words.now) }
    ensures no_command { MeanNothing (map string_bytes words.now) →
        (result ≡ Status.Usage) ⊎ ((result ≡ Status.WriteFault) ⊎ (result ≡ Status.NoMemory)) }
    ensures usage_text { result ≡ Status.Usage → WritesAll usage_answer
        (record { old = O.written out.old; new = O.written out.new })
        (record { old = E.written err.old; new = E.written err.new }) }

    // The status is that of an answer, and all of the answer was written; or a write failed, and a prefix of one was written.
    ensures answer { ForMap (F.known (files_of files.old)) (λ map'. IsOutcome (IsAnswer (D.Gives driver.old) (Q.Gives relay.old) map' (map string_bytes words.now)) result
        (record { old = O.written out.old; new = O.written out.new })
        (record { old = E.written err.old; new = E.written err.new })) }

    // The same holds by what the reads of this call gave, for all views of the files that agree with them.
    ensures reads { IsOutcomeOfReads (F.known (files_of files.old)) (reads_of files.old) (reads_of files.new)
        (λ seen. IsAnswer (D.Gives driver.old) (Q.Gives relay.old) seen (map string_bytes words.now)) result
        (record { old = O.written out.old; new = O.written out.new })
        (record { old = E.written err.old; new = E.written err.new }) }

    // The first read that fails ends the call, before any report.
    ensures ended { IsStatusOfReads result (reads_of files.old) (reads_of files.new) }

    // What only failures give, whatever the files contain.
    ensures read_fault { result ≡ Status.ReadFault → Rose (F.faults (files_of files.old)) (F.faults (files_of files.new)) }
    ensures write_fault { result ≡ Status.WriteFault → Rose (O.faults out.old) (O.faults out.new) ⊎ Rose (E.faults err.old) (E.faults err.new) }
    ensures nothing { (result ≡ Status.ReadFault) ⊎ (result ≡ Status.NoMemory) → (out.new ≡ out.old) × (err.new ≡ err.old) }

    // A generated case reads no file, and neither do words that are not a command.
    ensures unread { (rounds actors : ℕ) → IsGen (map string_bytes words.now) rounds actors → files.new ≡ files.old }
    ensures untouched { IsNoCommand (map string_bytes words.now) → files.new ≡ files.old }
{
    match answer_to(alloc, words, files, driver, relay) {
        Ok(answer) => match write_answer(&answer, out, err) {
            Ok(()) => answer.status,
            Err(_) => Status::WriteFault,
        },
        Err(Failure::ReadFault) => Status::ReadFault,
        Err(Failure::NoMemory) => Status::NoMemory,
    }
}
