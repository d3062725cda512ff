//! The files that a command reads.
ghost use Rattle.std.specs.Prelude.{◌≡◌, ◌∷◌, [], map, option_map, string_bytes};
ghost use Rattle.command_words.specs.Command.{file_of, list_of, path_of, view_of};
ghost use Rattle.ipdl_top.specs.CommandFiles.{files_by, program_named};
ghost use Rattle.ipdl_top.specs.FilesFound.{files_read, named_view};

use command_words::{Command, Sources};
use ipdl_base::MOST_BYTES;
use std::slice::from_ref;

/// The most bytes of a text that is audited.
const MOST_TEXT_BYTES: usize = 16_777_216;

/// The names of the files that a command reads.
#[derive(Drop)]
pub struct NamedFiles<'c> {
    /// The files of the program.
    pub program: &'c [String],
    /// The folders in which files of the program are looked for.
    pub path: &'c [String],
    /// The sync list, if one is given.
    pub list: Option<&'c str>,
    /// The script, if the command takes one.
    pub script: Option<&'c str>,
    /// The file of frames or the text to audit, if the command takes one.
    pub input: Option<&'c str>,
    /// The most bytes that are read of the input.
    pub input_limit: usize,
}

/// What a command reads.
#[derive(Drop)]
pub enum CommandFiles<'c> {
    /// Files of these names.
    Named(NamedFiles<'c>),
    /// The files of a generated case, by its numbers of rounds and actors.
    Case(u32, u32),
}

/// Returns the names of a command that reads a program, and no script and no input.
fn program_of<'c>(
    program: &'c [String],
    path: &'c Vec<String>,
    list: &'c Option<String>,
) -> NamedFiles<'c>
    ensures { named_view result ≡ program_named (option_map string_bytes list.entry.now) (map string_bytes path.entry.now.items) (map string_bytes program.entry.now) }
{
    NamedFiles {
        program,
        path: path.as_slice(),
        list: list.as_deref(),
        script: None,
        input: None,
        input_limit: MOST_BYTES,
    }
}

/// Returns the names of a command that reads the program of a file, and no script and no input.
fn sources_of(sources: &Sources) -> NamedFiles<'_>
    ensures { named_view result ≡ program_named (list_of sources.entry.now) (path_of sources.entry.now) (file_of sources.entry.now ∷ []) }
{
    program_of(from_ref(&sources.file), &sources.path, &sources.list)
}

/// Returns what a command reads.
pub fn files_of_command(command: &Command) -> CommandFiles<'_>
    ensures { files_read result ≡ files_by (view_of command.entry.now) }
{
    match command {
        Command::Compile { list, path, files } => {
            CommandFiles::Named(program_of(files.as_slice(), path, list))
        }
        Command::Frames(sources, options) => CommandFiles::Named(NamedFiles {
            input: Some(options.frames.as_str()),
            ..sources_of(sources)
        }),
        Command::Waits(sources) => CommandFiles::Named(sources_of(sources)),
        Command::Run(sources, options) | Command::Chart(sources, options) => {
            CommandFiles::Named(NamedFiles {
                script: Some(options.script.as_str()),
                ..sources_of(sources)
            })
        }
        Command::Gen { rounds, actors } => CommandFiles::Case(*rounds, *actors),
        Command::Feed(sources, options) => CommandFiles::Named(NamedFiles {
            script: Some(options.script.as_str()),
            input: Some(options.frames.as_str()),
            ..sources_of(sources)
        }),
        Command::Audit(sources, options) => CommandFiles::Named(NamedFiles {
            script: Some(options.script.as_str()),
            input: Some(options.transcript.as_str()),
            input_limit: MOST_TEXT_BYTES,
            ..sources_of(sources)
        }),
        Command::Relay(sources, options) => CommandFiles::Named(NamedFiles {
            script: Some(options.script.as_str()),
            ..sources_of(sources)
        }),
        Command::Explore(sources, options) => CommandFiles::Named(NamedFiles {
            script: Some(options.script.as_str()),
            ..sources_of(sources)
        }),
    }
}
