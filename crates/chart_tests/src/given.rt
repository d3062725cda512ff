//! What the tests read from a picture.
ghost use Rattle.ipdl_base.specs.Sound.{IsSound};

use charts::chart_text;
use history_of_text::history_of;
use ipdl_base::Schema;
use std::alloc::{AllocError, Global};
use std::test::Fail;

/// Notes the result of a row, if it differs from the expected one.
pub fn note(row: &str, found: &str, wanted: &str, wrong: &mut String) -> Result<(), AllocError> {
    if found == wanted {
        Ok(())
    } else {
        writeln!(wrong, "{row}: {found}")
    }
}

/// Returns how often a word is in a text.
pub fn count_of(text: &str, word: &str) -> usize {
    text.split(word).count().wrapping_sub(1)
}

/// Returns the picture of the lines of a transcript, which is text.
pub fn picture(alloc: Global, schema: &Schema, lines: &str) -> Result<String, Fail>
    requires { IsSound schema.now }
{
    let history = history_of(alloc, schema, lines)?;
    let chart = chart_text(alloc, schema, history.lines(), None)?;
    Ok(String::from_str(alloc, str::from_utf8(chart.as_slice())?)?)
}

/// Returns what is between two words of a text, the first place of either.
pub fn between<'t>(text: &'t str, before: &str, after: &str) -> Option<&'t str> {
    let (_, rest) = text.split_once(before)?;
    let (found, _) = rest.split_once(after)?;
    Some(found)
}

/// Returns the title of the first row of a picture.
pub fn title(chart: &str) -> Option<&str> {
    between(chart, "<g><title>", "</title>")
}

/// Returns the style and the words of the label of the first row of a picture.
pub fn label(chart: &str) -> Option<(&str, &str)> {
    let row = between(chart, "<g><title>", "</g>")?;
    let words = between(row, "<text ", "</text>")?;
    words.split_once(">")
}
