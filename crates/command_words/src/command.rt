//! The commands, and how words are read as one.
ghost use Rattle.std.specs.Prelude.{◌≡◌, IfErr, IfOk, map, string_bytes};
ghost use Rattle.command_words.specs.Command.{CommandOf, IsNoCommand};

use crate::WordsFault;
use crate::audit::{AuditOptions, audit};
use crate::compile::compile;
use crate::explore::{ExploreOptions, explore};
use crate::feed::{FeedOptions, feed};
use crate::frames::{FramesOptions, frames};
use crate::generation::generation;
use crate::relay::{RelayOptions, relay};
use crate::run::{RunOptions, chart, run};
use crate::waits::waits;
use std::alloc::Global;

/// The files of a program that is given by the file of its top protocol.
#[derive(Debug, Drop)]
pub struct Sources {
    /// The name of the sync list, if one is given.
    pub list: Option<String>,
    /// The folders in which files are looked for, in order.
    pub path: Vec<String>,
    /// The name of the file of the top protocol.
    pub file: String,
}

/// A command, with the values that its words give. docs/command_line.md states the forms of words.
#[derive(Debug, Drop)]
pub enum Command {
    /// Checks files, and prints their tables.
    Compile {
        /// The name of the sync list, if one is given.
        list: Option<String>,
        /// The folders in which files are looked for, in order.
        path: Vec<String>,
        /// The names of the files, in the order of their first words, none of them twice.
        files: Vec<String>,
    },
    /// Prints the frames that a file contains, or writes them anew in the second layout.
    Frames(Sources, FramesOptions),
    /// Lists, for each message that is waited for, what may be handled meanwhile.
    Waits(Sources),
    /// Runs a script, and prints the history of both ends.
    Run(Sources, RunOptions),
    /// Runs a generated case, and prints a summary of its history.
    Gen {
        /// The number of rounds, from 1 to 1,000.
        rounds: u32,
        /// The number of actors, from 1 to 100.
        actors: u32,
    },
    /// Runs one end on a file of bytes, and prints its history.
    Feed(Sources, FeedOptions),
    /// Says whether a text is the transcript of a run of a script.
    Audit(Sources, AuditOptions),
    /// Runs a script over two queues, and prints what each end has seen.
    Relay(Sources, RelayOptions),
    /// Runs a script, and draws the history of both ends.
    Chart(Sources, RunOptions),
    /// Lists the ways in which a script may go.
    Explore(Sources, ExploreOptions),
}

/// Reads words as a command. The name of the program is not among them (docs/command_line.md).
///
/// # Errors
///
/// `WordsFault::Usage` if the words are not a command, and `WordsFault::NoMemory` if memory runs out.
pub fn read_words(alloc: Global, words: &[String]) -> Result<Command, WordsFault>
    ensures command { IfOk result (λ command. CommandOf (map string_bytes words.now) command) }
    ensures usage { IfErr result (λ fault. fault ≡ WordsFault.Usage → IsNoCommand (map string_bytes words.now)) }
{
    if let Some((first, rest)) = words.split_first() {
        if first.as_str() == "frames" {
            return frames(alloc, rest);
        }
        if first.as_str() == "waits" {
            return waits(alloc, rest);
        }
        if first.as_str() == "run" {
            return run(alloc, rest);
        }
        if first.as_str() == "gen" {
            return generation(alloc, rest);
        }
        if first.as_str() == "feed" {
            return feed(alloc, rest);
        }
        if first.as_str() == "audit" {
            return audit(alloc, rest);
        }
        if first.as_str() == "relay" {
            return relay(alloc, rest);
        }
        if first.as_str() == "chart" {
            return chart(alloc, rest);
        }
        if first.as_str() == "explore" {
            return explore(alloc, rest);
        }
    }
    compile(alloc, words)
}
