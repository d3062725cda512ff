//! The program `ipdl`: the call of the library on real words, files and streams.
#![tactic(auto)]

ghost use Rattle.std.specs.Prelude.{◌≡◌, ◌⊎◌, ◌<◌, [], ℕ, drop, map, string_bytes};
ghost use Rattle.std.specs.Process.{exit_status};
ghost use Rattle.file_log.specs.Recorded.{files_of, reads_of};
ghost use Rattle.command_words.specs.Command.{IsNoCommand};
ghost use Rattle.command_words.specs.Gen.{IsGen};
ghost use Rattle.command_words.specs.Topics.{MeanNothing};
ghost use Rattle.host_io.specs.OpenedFiles.{read_faults_of};
ghost use Rattle.host_io.specs.Streams.{IsUnused, bytes_of, faults_of};
ghost use Rattle.ipdl_base.specs.Outside.{Rose};
ghost use Rattle.ipdl_top.specs.Command.{usage_text};
ghost use Rattle.ipdl_cli.specs.Ending.{AnswersByReads, IsCode};

mod edge;

use crate::edge::{exit_code_of, words_after_name};
use file_log::RecordedFiles;
use host_io::{RealFiles, RealSink};
use ipdl_top::Status;
use queue_link::TwoQueues;
use std::alloc::AllocError;
use std::env;
use std::io::{ErrorKind, Write};
use std::process::ExitCode;
use std::rt::{Env, Files};
use std::sync::Wait;
use std::thread::Threads;
use thread_link::{Gate, TwoThreads};

/// Returns the words of the process. The first of them is the program's name.
///
/// # Errors
///
/// `AllocError` if memory runs out.
fn process_words<R: Env + AllocGlobal>(rt: &R) -> Result<Vec<String>, AllocError> {
    match env::args(rt) {
        Ok(all) => all.collect(rt.alloc()),
        // A word that is not valid text is not a word of any command, so this becomes a call without
        // words.
        Err(error) if error.kind() == ErrorKind::InvalidData => Ok(Vec::new(rt.alloc())),
        // Otherwise the words fail only if memory runs out.
        Err(_) => Err(AllocError),
    }
}

/// Runs the program on the words of a process after its name, with files and streams that have not been
/// used yet. Returns the exit code that the process ends with (docs/theorems.md, "The outside").
fn run<'r, R: Files + Threads + Wait + Sync + AllocGlobal, O: Write, E: Write>(
    rt: &'r R,
    all: &[String],
    files: &mut RecordedFiles<RealFiles<'r, R>>,
    out: &mut RealSink<O>,
    err: &mut RealSink<E>,
) -> ExitCode
    requires unread { reads_of files.old ≡ [] }
    requires out_unused { IsUnused out.old }
    requires err_unused { IsUnused err.old }
    ensures answers { AnswersByReads (record {
      words = map string_bytes (drop 1 all.now);
      reads = reads_of files.new;
      code = exit_status result;
      out = bytes_of out.new;
      err = bytes_of err.new;
    }) }
    ensures usage { exit_status result ≡ 2 → MeanNothing (map string_bytes (drop 1 all.now)) }
    ensures no_command { MeanNothing (map string_bytes (drop 1 all.now)) →
        (exit_status result ≡ 2) ⊎ ((exit_status result ≡ 4) ⊎ (exit_status result ≡ 6)) }
    ensures usage_text { exit_status result ≡ 2 → (bytes_of out.new ≡ []) × (bytes_of err.new ≡ usage_text) }
    ensures read_fault { exit_status result ≡ 3 → Rose (read_faults_of (files_of files.old)) (read_faults_of (files_of files.new)) }
    ensures write_fault { exit_status result ≡ 4 → (0 < faults_of out.new) ⊎ (0 < faults_of err.new) }
    ensures unread { (rounds actors : ℕ) → IsGen (map string_bytes (drop 1 all.now)) rounds actors → files.new ≡ files.old }
    ensures untouched { IsNoCommand (map string_bytes (drop 1 all.now)) → files.new ≡ files.old }
{
    let words = words_after_name(all);
    let mut driver = TwoThreads::new(rt, Gate::Open);
    let mut relay = TwoQueues::new(rt, Gate::Open);
    exit_code_of(rt.alloc(), words, files, out, err, &mut driver, &mut relay)
}

/// Runs the program on the words of the process, its files and its two streams.
fn run_process<
    R: Files + Env + Threads + Wait + Sync + AllocGlobal,
    O: Write + Drop,
    E: Write + Drop,
>(rt: &R, out: O, err: E) -> ExitCode
    ensures { IsCode (exit_status result) }
{
    let Ok(words) = process_words(rt) else {
        return ExitCode::from(Status::NoMemory.code());
    };
    let mut files = RecordedFiles::new(RealFiles::new(rt));
    let mut out = RealSink::new(out);
    let mut err = RealSink::new(err);
    run(rt, words.as_slice(), &mut files, &mut out, &mut err)
}

fn main(rt: HostRuntime) -> ExitCode {
    run_process(&rt, rt.stdout(), rt.stderr())
}
