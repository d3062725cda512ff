//! The texts of `ipdl help` and `ipdl version`.
ghost use Rattle.std.specs.Prelude.{◌≡◌};
ghost use Rattle.ipdl_top.specs.Help.{help_on, topic_text};

use command_words::{CommandName, Topic};

/// What the program is, and which commands it has.
pub const PROGRAM_HELP: &str = "\
ipdl checks .ipdl files, the protocols between Firefox's processes, and runs
two ends of a protocol by a script.

usage: ipdl [-s LIST] [--path DIRS] FILES
       ipdl COMMAND ..

With FILES alone, lists the rules that they break, or prints their tables.

The commands:
  run        runs a script at both ends, and prints the history
  frames     prints the messages in a file of frames
  gen        runs a case that it makes itself, and prints a summary
  feed       runs one end on a file of frames
  relay      runs both ends over two queues of bytes
  audit      says whether a run of a script may print a text
  waits      lists which messages may be handled while one is waited for
  chart      draws the history of a run as an SVG document
  explore    lists every way in which a script may go
  help       prints this; with the name of a command, its words and an example
  version    prints the version of ipdl

`ipdl help compile` has the words of the command that is only FILES.

Ends with 0 where it did its work, 1 where files break rules, 2 where the words
are no command, 3 where a read failed, 4 where a write failed, 5 where a limit
was reached, 6 where memory ran out, 7 where a script breaks rules, 8 where a
file of frames has a fault, and 9 where no run prints the audited text.
";

/// The version of the program, and the kit that proves and builds it.
pub const VERSION: &str = "\
ipdl 1.0.0
rattle-kit-13f logic dac8208d650f15bf
";

/// The words of the command that compiles.
pub const COMPILE_HELP: &str = "\
usage: ipdl [-s LIST] [--path DIRS] FILES

Checks .ipdl and .ipdlh files and all files that they include. Lists each broken
rule with its place on standard error, and ends with 1; or prints the tables of
all protocols, structs and unions.

  -s, --sync-msg-list LIST   the file that lists the messages that may be sync
  --path DIRS                the folders in which included files are searched,
                             joined by `:`; `.` without it

Example: ipdl -s sync-messages.ini --path ipc:dom PContent.ipdl
";

/// The words of `run`.
pub const RUN_HELP: &str = "\
usage: ipdl run [-s LIST] [--path DIRS] [--schedule WORD] [--limit N] [--die SIDE:K] SCRIPT FILE

Runs SCRIPT at both ends of the protocol of FILE, and prints what each end does.

  -s, --sync-msg-list LIST   the file that lists the messages that may be sync
  --path DIRS                the folders in which included files are searched,
                             joined by `:`; `.` without it
  --schedule WORD            whose turn it is: P and C let the parent and the
                             child go on, p and c only take what has arrived;
                             at its end, both take turns. Without it, the ends
                             run at the same time on two threads
  --limit N                  the most events of each end, from 1 to 20,000;
                             10,000 without it
  --die SIDE:K               the end of SIDE, parent or child, dies once it has
                             K events

Example: ipdl run --schedule PCPC both.ids PWindow.ipdl
";

/// The words of `frames`.
pub const FRAMES_HELP: &str = "\
usage: ipdl frames [-s LIST] [--path DIRS] [--to 2] FILE FRAMES

Prints a line for each message in FRAMES, a file of frames of the protocols of
FILE. At the first bytes that are no frame, ends with 8 and says why.

  -s, --sync-msg-list LIST   the file that lists the messages that may be sync
  --path DIRS                the folders in which included files are searched,
                             joined by `:`; `.` without it
  --to 2                     writes the messages as frames of the new layout

Example: ipdl frames PShop.ipdl shop.frames
";

/// The words of `gen`.
pub const GEN_HELP: &str = "\
usage: ipdl gen [--actors A] N

Makes a protocol and a script with N rounds of messages, from 1 to 1,000, runs
it on two threads, and prints a summary of its history.

  --actors A                 the number of actors, from 1 to 100; 4 without it

Example: ipdl gen --actors 20 100
";

/// The words of `feed`.
pub const FEED_HELP: &str = "\
usage: ipdl feed [-s LIST] [--path DIRS] [--limit N] --side SIDE SCRIPT FILE FRAMES

Runs the end of SIDE by SCRIPT, as if the bytes of FRAMES came from the other end,
and prints what it does, and why it takes no more of them.

  -s, --sync-msg-list LIST   the file that lists the messages that may be sync
  --path DIRS                the folders in which included files are searched,
                             joined by `:`; `.` without it
  --limit N                  the most events of the end, from 1 to 20,000;
                             10,000 without it
  --side SIDE                the side of the end, parent or child

Example: ipdl feed --side child both.ids PWindow.ipdl from_parent.frames
";

/// The words of `relay`.
pub const RELAY_HELP: &str = "\
usage: ipdl relay [-s LIST] [--path DIRS] [--die SIDE:K] [--limit N] SCRIPT FILE

Runs SCRIPT at both ends of the protocol of FILE on two threads that share two
queues of bytes and nothing else, and prints what each end has seen.

  -s, --sync-msg-list LIST   the file that lists the messages that may be sync
  --path DIRS                the folders in which included files are searched,
                             joined by `:`; `.` without it
  --die SIDE:K               the end of SIDE, parent or child, dies once it has
                             K events
  --limit N                  the most events of each end, from 1 to 20,000;
                             10,000 without it

Example: ipdl relay both.ids PWindow.ipdl
";

/// The words of `audit`.
pub const AUDIT_HELP: &str = "\
usage: ipdl audit [-s LIST] [--path DIRS] [--limit N] SCRIPT FILE TRANSCRIPT

Says whether some run of SCRIPT prints the text of TRANSCRIPT; if none does, ends
with 9 and says which line is the first that no run prints.

  -s, --sync-msg-list LIST   the file that lists the messages that may be sync
  --path DIRS                the folders in which included files are searched,
                             joined by `:`; `.` without it
  --limit N                  the most events of each end, from 1 to 20,000;
                             10,000 without it

Example: ipdl audit both.ids PWindow.ipdl printed.txt
";

/// The words of `waits`.
pub const WAITS_HELP: &str = "\
usage: ipdl waits [-s LIST] [--path DIRS] FILE

Lists, for each message of the protocols of FILE whose sender waits for its
reply, the messages that may be handled while it waits.

  -s, --sync-msg-list LIST   the file that lists the messages that may be sync
  --path DIRS                the folders in which included files are searched,
                             joined by `:`; `.` without it

Example: ipdl waits PWindow.ipdl
";

/// The words of `chart`.
pub const CHART_HELP: &str = "\
usage: ipdl chart [-s LIST] [--path DIRS] [--schedule WORD] [--limit N] [--die SIDE:K] SCRIPT FILE

Runs SCRIPT as `ipdl run` does with the same words, and draws the history of both
ends as an SVG document.

  -s, --sync-msg-list LIST   the file that lists the messages that may be sync
  --path DIRS                the folders in which included files are searched,
                             joined by `:`; `.` without it
  --schedule WORD            whose turn it is, as for `run`
  --limit N                  the most events of each end, from 1 to 20,000;
                             10,000 without it
  --die SIDE:K               the end of SIDE, parent or child, dies once it has
                             K events

Example: ipdl chart --schedule PCPC both.ids PWindow.ipdl > both.svg
";

/// The words of `explore`.
pub const EXPLORE_HELP: &str = "\
usage: ipdl explore [-s LIST] [--path DIRS] [--limit N] [--ways M] SCRIPT FILE

Lists every way in which SCRIPT may go at both ends of the protocol of FILE: how
it ends, and the word by which `ipdl run --schedule` shows it. Ends with 5 where
there are more ways than M, or more than 100,000 states.

  -s, --sync-msg-list LIST   the file that lists the messages that may be sync
  --path DIRS                the folders in which included files are searched,
                             joined by `:`; `.` without it
  --limit N                  the most events of each end, from 1 to 20,000;
                             10,000 without it
  --ways M                   the most ways that are listed, from 1 to 10,000;
                             1,000 without it

Example: ipdl explore both.ids PWindow.ipdl
";

/// Returns the words of a command, what it does with them, and an example.
fn help_text(name: CommandName) -> &'static str
    ensures { result.now ≡ help_on name }
{
    match name {
        CommandName::Compile => COMPILE_HELP,
        CommandName::Run => RUN_HELP,
        CommandName::Frames => FRAMES_HELP,
        CommandName::Gen => GEN_HELP,
        CommandName::Feed => FEED_HELP,
        CommandName::Relay => RELAY_HELP,
        CommandName::Audit => AUDIT_HELP,
        CommandName::Waits => WAITS_HELP,
        CommandName::Chart => CHART_HELP,
        CommandName::Explore => EXPLORE_HELP,
    }
}

/// Returns the text on what words ask about.
pub fn text_on(topic: Topic) -> &'static str
    ensures { result.now ≡ topic_text topic }
{
    match topic {
        Topic::Program => PROGRAM_HELP,
        Topic::Command(name) => help_text(name),
        Topic::Version => VERSION,
    }
}
