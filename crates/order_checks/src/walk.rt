//! Walks over the lines of a history and tests one statement at each.
ghost use Rattle.std.specs.Prelude.{◌≡◌, ◌↔◌, [], IfOk, IsTrue};
ghost use Rattle.ipdl_base.specs.Sound.{IsSound};
ghost use Rattle.history_reading.specs.EndReadings.{end_view};
ghost use Rattle.history_reading.specs.Reading.{end_reading_of, opening_reading, other_of};
ghost use Rattle.history_reading.specs.Readings.{reading_view};
ghost use Rattle.law_statements.specs.Fallen.{Fallen};
ghost use Rattle.law_statements.specs.Living.{Living};
ghost use Rattle.law_statements.specs.Readable.{Readable};
ghost use Rattle.order_statements.specs.Answers.{Answers};
ghost use Rattle.order_statements.specs.Effects.{Effects};
ghost use Rattle.order_statements.specs.Order.{Order};
ghost use Rattle.order_checks.specs.Answered.{AreAnswered, numbers_of};
ghost use Rattle.order_checks.specs.Waiting.{AreWaiting, packets_of};
ghost use Rattle.order_checks.specs.Walk as the;

use crate::answered::AnsweredNumbers;
use crate::answers::answers_line;
use crate::effects::effects_line;
use crate::order::order_line;
use crate::waiting::WaitingPackets;
use history::History;
use history_reading::Reading;
use ipdl_base::{Line, Schema};
use std::alloc::{AllocError, Global};

/// A statement that is decided line by line.
#[derive(Clone, Copy)]
pub enum Statement {
    Order,
    Effects,
    Answers,
}

/// The test of a statement of a line, after the lines before it and before those after it.
#[tactic(auto, unfolding(crate::specs::Walk::line_test))]
fn line_test(
    statement: Statement,
    schema: &Schema,
    reading: &Reading<'_>,
    answered: &AnsweredNumbers,
    waiting: &WaitingPackets,
    before: &[Line],
    line: &Line,
    following: &[Line],
) -> bool
    requires { IsSound schema.now }
    ensures { result ≡ the.line_test statement schema.now line.now.side
        (end_reading_of line.now.side (reading_view reading.now))
        (other_of line.now.side (reading_view reading.now)) (numbers_of line.now.side answered.now) (packets_of line.now.side waiting.now) before.now line.now.what following.now }
{
    let own = reading.end(line.side);
    let other = reading.other(line.side);
    let numbers = answered.of(line.side);
    match statement {
        Statement::Order => {
            order_line(
                schema,
                line.side,
                own,
                other,
                waiting.of(line.side),
                &line.what,
            )
        }
        Statement::Effects => {
            effects_line(
                schema, line.side, own, numbers, before, &line.what, following,
            )
        }
        Statement::Answers => answers_line(
            schema, line.side, own, other, numbers, before, &line.what, following,
        ),
    }
}

/// Whether each line passes, where nothing was read before them.
fn all_pass<'h>(
    statement: Statement,
    schema: &Schema,
    reading: &mut Reading<'h>,
    answered: &mut AnsweredNumbers,
    waiting: &mut WaitingPackets,
    lines: &'h [Line],
) -> Result<bool, AllocError>
    requires sound { IsSound schema.now }
    requires new { reading_view reading.old ≡ opening_reading }
    requires none { AreAnswered [] answered.old }
    requires nothing { AreWaiting schema.now [] waiting.old }
    ensures { IfOk result (λ yes. yes ≡ the.all_pass statement schema.now lines.now) }
{
    for (index, line) in lines.iter().enumerate() {
        let before = &lines[..index];
        let following = &lines[index + 1..];
        if !line_test(
            statement, schema, reading, answered, waiting, before, line, following,
        ) {
            return Ok(false);
        }
        waiting.note(reading.end(line.side), line)?;
        reading.note(schema, line)?;
        answered.note(line)?;
    }
    Ok(true)
}

/// Whether each line of some passes.
fn decide(
    alloc: Global,
    statement: Statement,
    schema: &Schema,
    lines: &[Line],
) -> Result<bool, AllocError>
    requires { IsSound schema.now }
    ensures { IfOk result (λ yes. yes ≡ the.all_pass statement schema.now lines.now) }
{
    let mut reading = Reading::new(alloc)?;
    let mut answered = AnsweredNumbers::new(alloc);
    let mut waiting = WaitingPackets::new(alloc);
    let passed = all_pass(
        statement,
        schema,
        &mut reading,
        &mut answered,
        &mut waiting,
        lines,
    );
    drop(reading);
    passed
}

/// Whether each end of a history takes what has arrived in order (docs/laws.md). The history may be any list of lines that can
/// be read; of others the answer says nothing. Fails only when out of memory. Its time is at most quadratic in the lines.
pub fn keeps_order(alloc: Global, schema: &Schema, history: &History) -> Result<bool, AllocError>
    requires { IsSound schema.now }
    ensures { IfOk result (λ yes. Readable schema.now history.now.lines → (IsTrue yes ↔ Order schema.now history.now.lines)) }
{
    decide(alloc, Statement::Order, schema, history.lines())
}

/// Whether each event of a history gives the effects that it owes (docs/laws.md). The history may be any list of lines that
/// can be read and obeys the laws Living and Fallen; of others the answer says nothing. Fails only when out of memory. Its
/// time is at most quadratic in the lines.
pub fn gives_effects(alloc: Global, schema: &Schema, history: &History) -> Result<bool, AllocError>
    requires { IsSound schema.now }
    ensures { IfOk result (λ yes. Readable schema.now history.now.lines → Living schema.now history.now.lines → Fallen schema.now history.now.lines
        → (IsTrue yes ↔ Effects schema.now history.now.lines)) }
{
    decide(alloc, Statement::Effects, schema, history.lines())
}

/// Whether each end of a history gives the answers that it owes to the other (docs/laws.md). The history may be any list of
/// lines that can be read; of others the answer says nothing. Fails only when out of memory. Its time is at most quadratic
/// in the lines.
pub fn gives_answers(alloc: Global, schema: &Schema, history: &History) -> Result<bool, AllocError>
    requires { IsSound schema.now }
    ensures { IfOk result (λ yes. Readable schema.now history.now.lines → (IsTrue yes ↔ Answers schema.now history.now.lines)) }
{
    decide(alloc, Statement::Answers, schema, history.lines())
}
