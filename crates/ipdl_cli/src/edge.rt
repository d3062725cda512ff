//! The call of the library, and the number with which the process ends.

ghost use Rattle.std.specs.Prelude.{◌≡◌, ◌⊎◌, ℕ, drop, map, string_bytes};
ghost use Rattle.std.specs.Process.{exit_status};
ghost use Rattle.ipdl_base.specs.Outside.{Rose};
ghost use Rattle.file_log.specs.Recorded.{files_of, reads_of};
ghost use Rattle.command_words.specs.Command.{IsNoCommand};
ghost use Rattle.command_words.specs.Gen.{IsGen};
ghost use Rattle.command_words.specs.Topics.{MeanNothing};
ghost use Rattle.ipdl_top.specs.CommandAnswer.{IsAnswer, usage_answer};
ghost use Rattle.ipdl_top.specs.FileViews.{ForMap};
ghost use Rattle.ipdl_top.specs.Written.{WritesAll};
ghost use Rattle.ipdl_cli.specs.Ending.{EndsByReads, EndsWith, IsCode};

use file_log::RecordedFiles;
use ipdl_base::{Files, Sink};
use ipdl_top::ipdl;
use std::alloc::Global;
use std::process::ExitCode;
use world_core::{Driver, Relay};

/// Returns the words after the first, which is the program's name.
pub fn words_after_name(all: &[String]) -> &[String]
    ensures { result.now ≡ drop 1 all.now }
{
    match all.split_first() {
        Some((_name, words)) => words,
        None => &[],
    }
}

/// Calls the program on these words, files and sinks, and returns the number of its status as the exit
/// code of the process (docs/formats.md, "Statuses").
pub fn exit_code_of<F: Files, O: Sink, E: Sink, D: Driver, Q: Relay>(
    alloc: Global,
    words: &[String],
    files: &mut RecordedFiles<F>,
    out: &mut O,
    err: &mut E,
    driver: &mut D,
    relay: &mut Q,
) -> ExitCode
    requires ready { D.ready driver.old }
    requires relay_ready { Q.ready relay.old }
    ensures answer { ForMap (F.known (files_of files.old)) (λ map'. EndsWith
        (IsAnswer (D.Gives driver.old) (Q.Gives relay.old) map' (map string_bytes words.now)) (exit_status result)
        (record { old = O.written out.old; new = O.written out.new })
        (record { old = E.written err.old; new = E.written err.new })) }
    ensures reads { EndsByReads (F.known (files_of files.old)) (reads_of files.old) (reads_of files.new)
        (λ seen. IsAnswer (D.Gives driver.old) (Q.Gives relay.old) seen (map string_bytes words.now)) (exit_status result)
        (record { old = O.written out.old; new = O.written out.new })
        (record { old = E.written err.old; new = E.written err.new }) }
    ensures code { IsCode (exit_status result) }
    ensures usage { exit_status result ≡ 2 → MeanNothing (map string_bytes words.now) }
    ensures no_command { MeanNothing (map string_bytes words.now) →
        (exit_status result ≡ 2) ⊎ ((exit_status result ≡ 4) ⊎ (exit_status result ≡ 6)) }
    ensures usage_text { exit_status result ≡ 2 → WritesAll usage_answer
        (record { old = O.written out.old; new = O.written out.new })
        (record { old = E.written err.old; new = E.written err.new }) }
    ensures read_fault { exit_status result ≡ 3 → Rose (F.faults (files_of files.old)) (F.faults (files_of files.new)) }
    ensures write_fault { exit_status result ≡ 4 → Rose (O.faults out.old) (O.faults out.new) ⊎ Rose (E.faults err.old) (E.faults err.new) }
    ensures nothing { (exit_status result ≡ 3) ⊎ (exit_status result ≡ 6) → (out.new ≡ out.old) × (err.new ≡ err.old) }
    ensures unread { (rounds actors : ℕ) → IsGen (map string_bytes words.now) rounds actors → files.new ≡ files.old }
    ensures untouched { IsNoCommand (map string_bytes words.now) → files.new ≡ files.old }
{
    ExitCode::from(ipdl(alloc, words, files, out, err, driver, relay).code())
}
