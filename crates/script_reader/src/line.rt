//! The lines of a script, and how each of them is read.

ghost use Rattle.std.specs.Prelude.{◌≡◌, ◌↔◌, ◌≤◌, IsTrue, length, IfOk, IfErr};
ghost use Rattle.script_reader.specs.declared.statement.Statement.{Statement as StatementType};
ghost use Rattle.script_reader.specs.Lines.{first_mark, IsSilent, IsStatement, Says, IsReading};
ghost use Rattle.script_reader.specs.Reading.{Refuses};

use crate::pieces::is_blank;
use crate::statement::Statement;
use crate::statements::statement;
use crate::stop::ReadFailure;
use crate::tokens::tokens_of;
use ipdl_base::Items;
use std::alloc::{AllocError, Global};

/// How a line of a script is read.
#[derive(Drop)]
pub enum LineReading {
    /// Nothing: the line is blank or a comment.
    Silent,
    Statement(Box<Statement>),
    /// The line is not a statement.
    NoStatement,
    /// The line has more than `MAX_LINE_LEN` bytes.
    TooLong,
}

/// The readings of the lines of a script, in order.
pub type LineReadings = Items<LineReading>;

/// The greatest number of bytes in a line, without its line feed.
pub const MAX_LINE_LEN: usize = 16_384;

/// Returns the first byte of a line that is not blank.
fn first_mark(line: &[u8]) -> Option<u8>
    ensures { result ≡ first_mark line.now }
{
    line.iter().copied().find(|b| !is_blank(*b))
}

/// Returns whether a line is blank or a comment.
fn is_silent(line: &[u8]) -> bool
    ensures { IsTrue result ↔ IsSilent line.now }
{
    match first_mark(line) {
        None => true,
        Some(b) => b == b'#',
    }
}

/// Reads the statement of a line.
fn statement_of(alloc: Global, line: &[u8]) -> Result<Statement, ReadFailure>
    ensures read { IfOk result (IsStatement line.now) }
    ensures stops { IfErr result (Refuses ((s : StatementType) → ¬ IsStatement line.now s)) }
{
    let tokens = tokens_of(alloc, line)?;
    statement(alloc, tokens.as_slice())
}

/// Reads a line.
fn read_line(alloc: Global, line: &[u8]) -> Result<LineReading, AllocError>
    ensures { IfOk result (Says line.now) }
{
    if line.len() > MAX_LINE_LEN {
        return Ok(LineReading::TooLong);
    }
    if is_silent(line) {
        return Ok(LineReading::Silent);
    }
    match statement_of(alloc, line) {
        Ok(statement) => Ok(LineReading::Statement(Box::new(alloc, statement)?)),
        Err(ReadFailure::NoReading) => Ok(LineReading::NoStatement),
        Err(ReadFailure::NoMemory) => Err(AllocError),
    }
}

/// Reads each line of a text (docs/scripts.md). Takes time in proportion to the text. Fails only if
/// memory runs out.
pub fn read_lines(alloc: Global, text: &[u8]) -> Result<LineReadings, AllocError>
    ensures { IfOk result (IsReading text.now) }
{
    let mut readings = Vec::new(alloc);
    for line in text.split(|b| *b == b'\n') {
        readings.push(read_line(alloc, line)?)?;
    }
    Ok(Items::from_vec(readings))
}
