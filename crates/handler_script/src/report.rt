//! The findings of all rules on a script.

ghost use Rattle.std.specs.Prelude.{◌≡◌, ◌↔◌, ◌<◌, ◌^◌, ◌∷◌, [], ◌++◌, List, length, IsTrue, IsSomeAnd, OnOk, IfOk, option_map};
ghost use Rattle.findings.specs.Gains.{Gains};
ghost use Rattle.findings.specs.Report as report;
ghost use Rattle.script_reader.specs.declared.statement.Statement.{Statement as StatementType};
ghost use Rattle.handler_script.specs.Blocks.{said, statements};
ghost use Rattle.handler_script.specs.Broken as broken;
ghost use Rattle.handler_script.specs.Building.{listed};
ghost use Rattle.handler_script.specs.Contexts.{standing_in};
ghost use Rattle.handler_script.specs.Knowing.{Knows, KnowsBlock};
ghost use Rattle.handler_script.specs.Messages.{named};
ghost use Rattle.handler_script.specs.Tables.{IsTableOf};

use crate::context::{Context, context_of, given_in, is_misdirected, is_uncarried};
use crate::lines::{BlockProgress, OpenBlock, lines_after};
use crate::rules::{
    breaks_blocks, is_missent, is_not_allowed, is_unsent, names_none, sent, types_of, values_break,
};
use crate::table::MessageTable;
use findings::sort_findings;
use ipdl_base::{Finding, Findings, MessageRow, Place, Rule, Schema};
use script_reader::{LineReading, Statement};
use std::alloc::{AllocError, Global};

/// Returns the place of the first column of the line with this number.
fn line_place(line: u32) -> Place
    ensures { result ≡ broken.line_place line }
{
    Place {
        file: 0,
        line,
        column: 1,
    }
}

/// Adds a finding of the rule at the place, if the rule is broken there.
fn add_if(
    rule: Rule,
    place: Place,
    breaks: bool,
    found: &mut Vec<Finding>,
) -> Result<(), AllocError>
    ensures { OnOk result (Gains (λ f. (place ≡ f.place) × ((f.rule ≡ rule) × IsTrue breaks)) found.old.items found.new.items) }
{
    if breaks {
        found.push(Finding { place, rule })?;
    }
    Ok(())
}

/// Adds the findings of the rules that the opening of a block breaks.
fn add_opening(
    opened: Option<Context<'_>>,
    place: Place,
    found: &mut Vec<Finding>,
) -> Result<(), AllocError>
    ensures { OnOk result (Gains (λ f. (place ≡ f.place) × broken.OpeningBreaks f.rule (option_map standing_in opened.entry)) found.old.items found.new.items) }
{
    let misdirected = is_misdirected(opened);
    let uncarried = is_uncarried(opened);
    add_if(Rule::WRONG_DIRECTION, place, misdirected, found)?;
    add_if(Rule::UNCARRIED_TYPE, place, uncarried, found)
}

/// Adds the findings of the rules that a statement breaks in this block, if the block's message exists.
fn add_in_block(
    schema: &Schema,
    block: OpenBlock<'_>,
    statement: &Statement,
    message: Option<&MessageRow>,
    after: &[LineReading],
    place: Place,
    found: &mut Vec<Finding>,
) -> Result<(), AllocError>
    ensures { OnOk result (Gains (λ f. (place ≡ f.place) × IsSomeAnd (option_map standing_in block.entry.context) (λ context.
        broken.BlockBreaks schema.now f.rule (option_map (λ m. m.now) message.entry) block.entry.answered context statement.now (statements after.now)))
        found.old.items found.new.items) }
{
    let Some(context) = block.context else {
        return Ok(());
    };
    let sent = sent(statement, message);
    let direction = is_missent(context, sent);
    let carried = is_unsent(sent);
    let types = types_of(context, statement, message);
    let values = values_break(schema, given_in(context), types, statement);
    let allowed = is_not_allowed(context, block.answered, statement, message, after);
    add_if(Rule::WRONG_DIRECTION, place, direction, found)?;
    add_if(Rule::UNFIT_VALUES, place, values, found)?;
    add_if(Rule::NOT_ALLOWED_HERE, place, allowed, found)?;
    add_if(Rule::UNCARRIED_TYPE, place, carried, found)
}

/// Adds the findings of the rules that a statement breaks in the block that it is in.
fn add_inside(
    schema: &Schema,
    block: Option<OpenBlock<'_>>,
    statement: &Statement,
    message: Option<&MessageRow>,
    after: &[LineReading],
    place: Place,
    found: &mut Vec<Finding>,
) -> Result<(), AllocError>
    ensures { OnOk result ((before : List StatementType) → KnowsBlock schema.now before block.entry
        → option_map (λ m. m.now) message.entry ≡ named schema.now statement.now
        → Gains (λ f. (place ≡ f.place) × broken.InsideBreaks schema.now f.rule before statement.now (statements after.now)) found.old.items found.new.items) }
{
    match block {
        Some(block) => add_in_block(schema, block, statement, message, after, place, found),
        None => Ok(()),
    }
}

/// Adds the findings of the rules that a statement breaks by its message and in its block.
fn add_named(
    schema: &Schema,
    block: Option<OpenBlock<'_>>,
    statement: &Statement,
    message: Option<&MessageRow>,
    after: &[LineReading],
    place: Place,
    found: &mut Vec<Finding>,
) -> Result<(), AllocError>
    ensures { OnOk result ((before : List StatementType) → KnowsBlock schema.now before block.entry
        → option_map (λ m. m.now) message.entry ≡ named schema.now statement.now
        → Gains (λ f. (place ≡ f.place) × broken.MessageBreaks schema.now f.rule before statement.now (statements after.now)) found.old.items found.new.items) }
{
    if names_none(statement, message) {
        return add_if(Rule::UNKNOWN_MESSAGE, place, true, found);
    }
    add_opening(context_of(statement, message), place, found)?;
    add_inside(schema, block, statement, message, after, place, found)
}

/// Adds the findings of the rules that a statement breaks, and returns what is known after it.
fn add_statement<'a>(
    schema: &Schema,
    messages: &MessageTable<'a>,
    reached: BlockProgress<'a>,
    statement: &Statement,
    after: &[LineReading],
    place: Place,
    found: &mut Vec<Finding>,
) -> Result<BlockProgress<'a>, AllocError>
    requires { IsTableOf schema.now messages.now }
    ensures gains { OnOk result ((before : List StatementType) → Knows schema.now before reached.entry
        → Gains (λ f. (place ≡ f.place) × broken.StatementBreaks schema.now f.rule before statement.now (statements after.now))
        found.old.items found.new.items) }
    ensures knows { IfOk result (λ following. (before : List StatementType) → Knows schema.now before reached.entry
        → Knows schema.now (before ++ statement.now ∷ []) following) }
{
    let message = messages.message_of(statement);
    let blocks = breaks_blocks(reached, statement, after);
    add_if(Rule::BLOCK_STRUCTURE, place, blocks, found)?;
    add_named(
        schema,
        reached.block,
        statement,
        message,
        after,
        place,
        found,
    )?;
    Ok(reached.following(statement, context_of(statement, message)))
}

/// Adds the findings of the rules that a line breaks, and returns what is known after it.
fn add_line<'a>(
    schema: &Schema,
    messages: &MessageTable<'a>,
    reached: BlockProgress<'a>,
    reading: &LineReading,
    after: &[LineReading],
    place: Place,
    found: &mut Vec<Finding>,
) -> Result<BlockProgress<'a>, AllocError>
    requires { IsTableOf schema.now messages.now }
    ensures gains { OnOk result ((before : List StatementType) → Knows schema.now before reached.entry
        → Gains (λ f. (place ≡ f.place) × broken.LineBreaks schema.now f.rule before reading.now (statements after.now)) found.old.items found.new.items) }
    ensures knows { IfOk result (λ following. (before : List StatementType) → Knows schema.now before reached.entry
        → Knows schema.now (before ++ listed (said reading.now)) following) }
{
    match reading {
        LineReading::Silent => Ok(reached),
        LineReading::Statement(statement) => {
            add_statement(schema, messages, reached, statement, after, place, found)
        }
        LineReading::NoStatement => {
            add_if(Rule::NOT_A_STATEMENT, place, true, found)?;
            Ok(reached)
        }
        LineReading::TooLong => {
            add_if(Rule::UNREADABLE_SCRIPT, place, true, found)?;
            Ok(reached)
        }
    }
}

/// Adds the findings of the rules that lines break.
fn add_lines(
    schema: &Schema,
    messages: &MessageTable<'_>,
    readings: &[LineReading],
    found: &mut Vec<Finding>,
) -> Result<(), AllocError>
    requires table { IsTableOf schema.now messages.now }
    requires few { length readings.now < 2 ^ 32 }
    ensures { OnOk result (Gains (broken.IsBrokenByLine schema.now readings.now) found.old.items found.new.items) }
{
    let mut reached = BlockProgress {
        block: None,
        parent: false,
        child: false,
    };
    for (i, reading) in readings.iter().enumerate() {
        let place = line_place(i as u32 + 1);
        let after = lines_after(readings, i);
        reached = add_line(schema, messages, reached, reading, after, place, found)?;
    }
    Ok(())
}

/// Returns whether the top protocol has a manager.
fn has_manager(schema: &Schema, top: u32) -> bool
    ensures { IsTrue result ↔ broken.HasManager schema.now top }
{
    match schema.protocols.as_slice().get(top as usize) {
        Some(protocol) => !protocol.managers.as_slice().is_empty(),
        None => false,
    }
}

/// Returns the report on the readings of all lines, for a schema, the table of its messages and its top
/// protocol.
pub fn report_of(
    alloc: Global,
    schema: &Schema,
    messages: &MessageTable<'_>,
    top: u32,
    readings: &[LineReading],
) -> Result<Findings, AllocError>
    requires table { IsTableOf schema.now messages.now }
    requires few { length readings.now < 2 ^ 32 }
    ensures { IfOk result (report.IsReport (broken.IsBroken schema.now top readings.now)) }
{
    let mut found = Vec::new(alloc);
    let whole = Place {
        file: 0,
        line: 0,
        column: 0,
    };
    let managed = has_manager(schema, top);
    add_if(Rule::NOT_A_TOP_PROTOCOL, whole, managed, &mut found)?;
    add_lines(schema, messages, readings, &mut found)?;
    Ok(sort_findings(found))
}
