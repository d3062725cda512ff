//! What is known of the lines up to one, and whether a block ends after it.

ghost use Rattle.std.specs.Prelude.{◌≡◌, ◌↔◌, ◌+◌, ◌<◌, IsTrue, length, drop, option_map};
ghost use Rattle.std.specs.List.{list_any};
ghost use Rattle.handler_script.specs.Blocks as blocks;
ghost use Rattle.handler_script.specs.Broken as broken;

use crate::context::Context;
use ipdl_base::Side;
use script_reader::{LineReading, Statement};

/// A block that is open.
#[derive(Clone, Copy)]
pub struct OpenBlock<'a> {
    /// The block, if the message that it handles exists.
    pub context: Option<Context<'a>>,
    /// Whether one of its lines answers the handled message or keeps its resolver.
    pub answered: bool,
}

/// What is known after some lines.
#[derive(Clone, Copy)]
pub struct BlockProgress<'a> {
    /// The block that is open, if one is.
    pub block: Option<OpenBlock<'a>>,
    /// Whether there was a main of the parent.
    pub parent: bool,
    /// Whether there was a main of the child.
    pub child: bool,
}

/// Returns the statement of a line, if it has one.
pub fn said(line: &LineReading) -> Option<&Statement>
    ensures { option_map (λ s. s.now) result ≡ blocks.said line.now }
{
    match line {
        LineReading::Statement(statement) => Some(statement),
        _ => None,
    }
}

/// Returns the lines after the one with this index.
pub fn lines_after(lines: &[LineReading], index: usize) -> &[LineReading]
    requires { index < length lines.now }
    ensures { result.now ≡ drop (index + 1) lines.now }
{
    &lines[index + 1..]
}

/// Returns whether a statement opens a block.
pub fn opens(statement: &Statement) -> bool
    ensures { result ≡ blocks.opens statement.now }
{
    matches!(statement, Statement::Main(_) | Statement::On(_, _))
}

/// Returns whether a statement ends the block before it: `end`, or one that opens another block.
pub fn closes(statement: &Statement) -> bool
    ensures { result ≡ blocks.closes statement.now }
{
    opens(statement) || matches!(statement, Statement::End)
}

/// Returns whether a statement answers the handled message, or keeps its resolver.
pub fn answers(statement: &Statement) -> bool
    ensures { result ≡ blocks.answers statement.now }
{
    matches!(
        statement,
        Statement::Resolve(_) | Statement::Reject | Statement::Keep(_)
    )
}

/// Returns whether another statement of the same block follows in these lines.
pub fn is_followed(lines: &[LineReading]) -> bool
    ensures { IsTrue result ↔ blocks.IsFollowed (blocks.statements lines.now) }
{
    for line in lines {
        if let Some(statement) = said(line) {
            return !closes(statement);
        }
    }
    false
}

/// Returns whether a block that is open before these lines is closed in them.
pub fn is_closed(lines: &[LineReading]) -> bool
    ensures { result ≡ list_any blocks.closes (blocks.statements lines.now) }
{
    for line in lines {
        if let Some(statement) = said(line) {
            if closes(statement) {
                return true;
            }
        }
    }
    false
}

/// Returns whether a statement is a main of the side.
fn is_main(statement: &Statement, side: Side) -> bool
    ensures { result ≡ broken.is_main side statement.now }
{
    matches!(statement, Statement::Main(other) if *other == side)
}

impl<'a> OpenBlock<'a> {
    ghost use Rattle.std.specs.Prelude.{List, [], ◌∷◌, ◌++◌};
    ghost use Rattle.ipdl_base.specs.declared.schema.Schema.{Schema as SchemaType};
    ghost use Rattle.script_reader.specs.declared.statement.Statement.{Statement as StatementType};
    ghost use Rattle.handler_script.specs.Contexts.{standing_in};
    ghost use Rattle.handler_script.specs.Knowing.{KnowsBlock};

    /// Returns the block that is open after a statement, where `block` was open before it. `opened` is
    /// the block that the statement opens, if it opens one.
    fn following(
        block: Option<OpenBlock<'a>>,
        statement: &Statement,
        opened: Option<Context<'a>>,
    ) -> Option<OpenBlock<'a>>
        ensures { (schema : SchemaType) (before : List StatementType) → KnowsBlock schema before block.entry
            → option_map standing_in opened.entry ≡ blocks.standing_of schema statement.now
            → KnowsBlock schema (before ++ statement.now ∷ []) result }
    {
        if opens(statement) {
            return Some(OpenBlock {
                context: opened,
                answered: false,
            });
        }
        if closes(statement) {
            return None;
        }
        let block = block?;
        Some(OpenBlock {
            context: block.context,
            answered: block.answered || answers(statement),
        })
    }
}

impl<'a> BlockProgress<'a> {
    ghost use Rattle.std.specs.Prelude.{List, [], ◌∷◌, ◌++◌};
    ghost use Rattle.ipdl_base.specs.declared.schema.Schema.{Schema as SchemaType};
    ghost use Rattle.script_reader.specs.declared.statement.Statement.{Statement as StatementType};
    ghost use Rattle.handler_script.specs.Contexts.{standing_in};
    ghost use Rattle.handler_script.specs.Knowing.{Knows};

    /// Returns whether there was a main of the side.
    pub fn has_main(self, side: Side) -> bool
        ensures { (schema : SchemaType) (before : List StatementType) → Knows schema before self.entry → result ≡ list_any (broken.is_main side) before }
    {
        match side {
            Side::Parent => self.parent,
            Side::Child => self.child,
        }
    }

    /// Returns what is known after one more statement. `opened` is the block that it opens, if it opens
    /// one.
    pub fn following(self, statement: &Statement, opened: Option<Context<'a>>) -> BlockProgress<'a>
        ensures { (schema : SchemaType) (before : List StatementType) → Knows schema before self.entry
            → option_map standing_in opened.entry ≡ blocks.standing_of schema statement.now
            → Knows schema (before ++ statement.now ∷ []) result }
    {
        BlockProgress {
            block: OpenBlock::following(self.block, statement, opened),
            parent: self.parent || is_main(statement, Side::Parent),
            child: self.child || is_main(statement, Side::Child),
        }
    }
}
