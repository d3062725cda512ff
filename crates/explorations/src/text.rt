//! The text of an exploration (docs/explore.md).
ghost use Rattle.std.specs.Prelude.{◌≡◌, ◌++◌, IfOk, OnOk, map};
ghost use Rattle.std.specs.List.{flat_map};
ghost use Rattle.command_words.specs.RunOptions.{letter_of};
ghost use Rattle.explorations.specs.Seen.{ending_of, exploration_seen, way_seen};
ghost use Rattle.explorations.specs.Text as text;

use crate::way::{Exploration, Way};
use ipdl_base::Side;
use schedules::Turn;
use std::alloc::{AllocError, Global};
use value_types::push_decimal;

/// The length of the longest line of a way, without the letters of its word.
const LINE_LENGTH: usize = 14;

/// A length that the last line does not pass.
const LAST_LINE_LENGTH: usize = 40;

/// Returns the letter of a turn, as `--schedule` takes it.
fn letter(turn: Turn) -> u8
    ensures { result ≡ letter_of turn }
{
    match (turn.only_deliver, turn.side) {
        (false, Side::Parent) => b'P',
        (false, Side::Child) => b'C',
        (true, Side::Parent) => b'p',
        (true, Side::Child) => b'c',
    }
}

/// Appends the letters of turns.
fn push_letters(out: &mut Vec<u8>, word: &[Turn]) -> Result<(), AllocError>
    ensures { OnOk result (out.new.items ≡ out.old.items ++ map letter_of word.now) }
{
    for turn in word {
        out.push(letter(*turn))?;
    }
    Ok(())
}

/// Appends a blank and the letters of a word, or nothing if the word has no letter.
fn push_word(out: &mut Vec<u8>, word: &[Turn]) -> Result<(), AllocError>
    ensures { OnOk result (out.new.items ≡ out.old.items ++ text.word_text word.now) }
{
    if word.is_empty() {
        return Ok(());
    }
    out.extend_from_slice(b" ")?;
    push_letters(out, word)
}

/// Returns the words that report how a run ends, by the side that has reached the limit, if one has.
fn ending_words(spent: Option<Side>) -> &'static [u8]
    ensures { result.now ≡ text.ending_words (ending_of spent) }
{
    match spent {
        None => b"finished",
        Some(Side::Parent) => b"spent parent",
        Some(Side::Child) => b"spent child",
    }
}

/// Appends the line of a way.
fn push_way(out: &mut Vec<u8>, way: &Way) -> Result<(), AllocError>
    ensures { OnOk result (out.new.items ≡ out.old.items ++ text.way_line (way_seen way.now)) }
{
    out.extend_from_slice(ending_words(way.spent))?;
    push_word(out, way.word.as_slice())?;
    out.extend_from_slice(b"\n")
}

/// Appends the lines of ways.
fn push_ways(out: &mut Vec<u8>, ways: &[Way]) -> Result<(), AllocError>
    ensures { OnOk result (out.new.items ≡ out.old.items ++ flat_map text.way_line (map way_seen ways.now)) }
{
    for way in ways {
        push_way(out, way)?;
    }
    Ok(())
}

/// Returns the word for so many ways.
fn ways_word(count: usize) -> &'static [u8]
    ensures { result.now ≡ text.ways_word count }
{
    if count == 1 { b" way" } else { b" ways" }
}

/// Returns what follows the number of the ways, by whether these are all ways.
fn rest_words(whole: bool) -> &'static [u8]
    ensures { result.now ≡ text.rest_words whole }
{
    if whole { b"" } else { b" and more" }
}

/// Appends the last line.
fn push_count(out: &mut Vec<u8>, count: usize, whole: bool) -> Result<(), AllocError>
    ensures { OnOk result (out.new.items ≡ out.old.items ++ text.count_line count whole) }
{
    push_decimal(out, count)?;
    out.extend_from_slice(ways_word(count))?;
    out.extend_from_slice(rest_words(whole))?;
    out.extend_from_slice(b"\n")
}

/// Returns a length that the text does not pass.
fn greatest_length(ways: &[Way]) -> usize {
    let mut length = LAST_LINE_LENGTH;
    for way in ways {
        length = length.saturating_add(way.word.len());
        length = length.saturating_add(LINE_LENGTH);
    }
    length
}

/// Returns the text of an exploration: a line for each way, and a last line with their number (docs/explore.md). The text is
/// sized once. Fails only if memory runs out.
pub fn exploration_text(alloc: Global, exploration: &Exploration) -> Result<Vec<u8>, AllocError>
    ensures { IfOk result (λ written. written.items ≡ text.exploration_text (exploration_seen exploration.now)) }
{
    let ways = exploration.ways.as_slice();
    let mut out = Vec::with_capacity(alloc, greatest_length(ways))?;
    push_ways(&mut out, ways)?;
    push_count(&mut out, ways.len(), exploration.whole)?;
    Ok(out)
}
