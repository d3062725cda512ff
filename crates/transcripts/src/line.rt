//! One line of a text: where it ends, and what its first words report.
ghost use Rattle.std.specs.Prelude.{◌≡◌, ◌≢◌, ◌<◌, ◌≤◌, [], ◌∷◌, length};
ghost use Rattle.std.specs.List.{prefix_len};
ghost use Rattle.transcripts.specs.TextLines.{text_lines};
ghost use Rattle.transcripts.specs.Told.{begins_with};
ghost use Rattle.transcripts.specs.Lines.{EndingIs, IsFirstLine, IsReadAs, is_no_feed};

use ipdl_base::Side;
use schedules::Turn;

/// What the first words of a line report.
#[derive(Clone, Copy)]
pub enum TranscriptLine {
    /// An event of the side of the turn. It is a delivery if the turn allows a delivery alone.
    Event(Turn),
    /// An effect of the event before it.
    Effect,
    /// Neither of these. No line of a history has this text.
    Other,
}

/// How a run ended, by the last line that it prints.
#[derive(Clone, Copy)]
pub enum Ending {
    /// Nothing was left to do.
    Finished,
    /// This side would have passed the limit of events.
    Spent(Side),
}

// Returns the number of bytes before the first line feed, or of all bytes if there is no line feed.
fn before_feed(text: &[u8]) -> usize
    ensures len { result ≡ prefix_len is_no_feed text.now }
    ensures within { result ≤ length text.now }
{
    text.iter().take_while(|b| **b != b'\n').count()
}

/// Splits a text after its first line.
pub fn split_line(text: &[u8]) -> (&[u8], &[u8])
    requires { text.now ≢ [] }
    ensures lines { text_lines text.now ≡ result.0.now ∷ text_lines result.1.now }
    ensures shorter { length result.1.now < length text.now }
{
    text.split_at(first_line_len(text))
}

// Returns the length of the first line, including its line feed if it has one.
fn first_line_len(text: &[u8]) -> usize
    requires { text.now ≢ [] }
    ensures { IsFirstLine text.now result }
{
    let before = before_feed(text);
    if before < text.len() {
        before + 1
    } else {
        before
    }
}

// Returns whether a text begins with a word.
fn begins_with(text: &[u8], word: &[u8]) -> bool
    ensures { result ≡ begins_with word.now text.now }
{
    text.starts_with(word)
}

/// Returns what the first words of a line report (docs/audit.md).
pub fn read_line(line: &[u8]) -> TranscriptLine
    ensures { IsReadAs line.now result }
{
    if begins_with(line, b"parent ") {
        TranscriptLine::Event(Turn {
            side: Side::Parent,
            only_deliver: begins_with(line, b"parent deliver "),
        })
    } else if begins_with(line, b"child ") {
        TranscriptLine::Event(Turn {
            side: Side::Child,
            only_deliver: begins_with(line, b"child deliver "),
        })
    } else if begins_with(line, b"  ") {
        TranscriptLine::Effect
    } else {
        TranscriptLine::Other
    }
}

/// Returns how a run ended that printed this last line, or `None` if this is not the last line of a run
/// (docs/scripts.md).
pub fn read_ending(line: &[u8]) -> Option<Ending>
    ensures { EndingIs line.now result }
{
    if line == b"finished\n".as_slice() {
        Some(Ending::Finished)
    } else if line == b"spent parent\n".as_slice() {
        Some(Ending::Spent(Side::Parent))
    } else if line == b"spent child\n".as_slice() {
        Some(Ending::Spent(Side::Child))
    } else {
        None
    }
}
