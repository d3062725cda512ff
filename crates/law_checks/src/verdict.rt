//! Decides each law by a walk over the lines.
ghost use Rattle.std.specs.Prelude.{◌≡◌, ◌↔◌, IfOk, IsTrue};
ghost use Rattle.ipdl_base.specs.Sound.{IsSound};
ghost use Rattle.history_reading.specs.Holds as the;
ghost use Rattle.history_reading.specs.Reading.{end_reading_of, opening_reading, other_of};
ghost use Rattle.history_reading.specs.Readings.{reading_view};

use crate::fallen::{fallen_line, fallen_moment};
use crate::living::living_line;
use crate::prefix::prefix_line;
use crate::settled::{settled_line, settled_moment};
use crate::waits::{waits_line, waits_moment};
use history::History;
use history_reading::{Law, Reading};
use ipdl_base::{Line, Schema, What, is_effect};
use reading_checks::is_readable;
use std::alloc::{AllocError, Global};

/// Whether a line obeys a law, before the lines after it.
fn line_test(
    law: Law,
    schema: &Schema,
    reading: &Reading<'_>,
    line: &Line,
    following: &[Line],
) -> bool
    requires { IsSound schema.now }
    ensures { result ≡ the.line_test law schema.now line.now.side
        (end_reading_of line.now.side (reading_view reading.now))
        (other_of line.now.side (reading_view reading.now)) line.now.what following.now }
{
    let own = reading.end(line.side);
    let other = reading.other(line.side);
    match law {
        Law::Prefix => prefix_line(schema, own, other, &line.what),
        Law::Living => living_line(schema, line.side, own, other, &line.what),
        Law::Waits => waits_line(schema, own, other, &line.what),
        Law::Settled => settled_line(schema, line.side, own, other, &line.what, following),
        Law::Fallen => fallen_line(own, &line.what),
    }
}

/// Whether a moment obeys a law.
#[tactic(auto, unfolding(history_reading::specs::Holds::moment_test))]
fn moment_test(law: Law, schema: &Schema, reading: &Reading<'_>) -> bool
    requires { IsSound schema.now }
    ensures { result ≡ the.moment_test law schema.now (reading_view reading.now) }
{
    match law {
        Law::Prefix | Law::Living => true,
        Law::Waits => waits_moment(schema, reading),
        Law::Settled => settled_moment(&reading.parent) && settled_moment(&reading.child),
        Law::Fallen => fallen_moment(&reading.parent) && fallen_moment(&reading.child),
    }
}

/// Whether the moment before a line obeys a law, if the line is an event.
fn moment_before(law: Law, schema: &Schema, reading: &Reading<'_>, what: &What) -> bool
    requires { IsSound schema.now }
    ensures { result ≡ the.moment_before law schema.now (reading_view reading.now) what.now }
{
    is_effect(what) || moment_test(law, schema, reading)
}

/// Whether a line obeys a law, with the moment before it and before the lines after it.
#[tactic(auto, unfolding(history_reading::specs::Holds::passes))]
fn passes(law: Law, schema: &Schema, reading: &Reading<'_>, line: &Line, following: &[Line]) -> bool
    requires { IsSound schema.now }
    ensures { result ≡ the.passes law schema.now (reading_view reading.now) line.now following.now }
{
    if !is_readable(schema, reading, line) {
        return false;
    }
    moment_before(law, schema, reading, &line.what)
        && line_test(law, schema, reading, line, following)
}

/// Whether a law holds of lines where nothing was read before them.
fn all_pass<'h>(
    law: Law,
    schema: &Schema,
    reading: &mut Reading<'h>,
    lines: &'h [Line],
) -> Result<bool, AllocError>
    requires sound { IsSound schema.now }
    requires new { reading_view reading.old ≡ opening_reading }
    ensures { IfOk result (λ yes. yes ≡ the.holds_of law schema.now lines.now) }
{
    for (index, line) in lines.iter().enumerate() {
        if !passes(law, schema, reading, line, &lines[index + 1..]) {
            return Ok(false);
        }
        reading.note(schema, line)?;
    }
    Ok(moment_test(law, schema, reading))
}

/// Whether a law holds of lines.
fn decide(alloc: Global, law: Law, schema: &Schema, lines: &[Line]) -> Result<bool, AllocError>
    requires { IsSound schema.now }
    ensures { IfOk result (λ yes. yes ≡ the.holds_of law schema.now lines.now) }
{
    let mut reading = Reading::new(alloc)?;
    let holds = all_pass(law, schema, &mut reading, lines);
    drop(reading);
    holds
}

/// Returns whether a law holds of a history (docs/laws.md). The history may be any list of lines;
/// no law holds of one that is not readable. Fails only if memory runs out. Its time is at most
/// quadratic in the lines.
pub fn holds(
    alloc: Global,
    law: Law,
    schema: &Schema,
    history: &History,
) -> Result<bool, AllocError>
    requires { IsSound schema.now }
    ensures { IfOk result (λ yes. IsTrue yes ↔ the.Holds law schema.now history.now.lines) }
{
    decide(alloc, law, schema, history.lines())
}
