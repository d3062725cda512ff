//! Reads a statement from the tokens of a line.

ghost use Rattle.std.specs.Prelude.{◌≡◌, ◌≢◌, ◌↔◌, ◌<◌, IsTrue, count_by, true, false, [], IfOk, IfErr, List};
ghost use Rattle.script_reader.specs.declared.parts.Keyword.TheVariants as keywords;
ghost use Rattle.script_reader.specs.declared.statement.WrittenMessage.{WrittenMessage as CallType};
ghost use Rattle.script_reader.specs.declared.statement.MessageName.{MessageName as MessageNameType};
ghost use Rattle.script_reader.specs.declared.statement.Statement.{Statement as StatementType};
ghost use Rattle.script_reader.specs.declared.token.ScriptToken.{ScriptToken as TokenType};
ghost use Rattle.script_reader.specs.declared.written.WrittenValues.{WrittenValues as ValuesType};
ghost use Rattle.script_reader.specs.Grammar as grammar;
ghost use Rattle.script_reader.specs.Heads as heads;
ghost use Rattle.script_reader.specs.Reading.{Refuses, IsAfter};

use crate::parts::{Bracket, Keyword};
use crate::reader::LineTokens;
use crate::statement::{MessageName, Statement, WrittenMessage};
use crate::stop::ReadFailure;
use crate::token::ScriptToken;
use crate::values::listed;
use crate::written::WrittenValues;
use ipdl_base::Side;
use std::alloc::Global;

/// Reads a message, as `P.M`.
fn message(alloc: Global, reader: &mut LineTokens) -> Result<MessageName, ReadFailure>
    ensures read { IfOk result (λ m. grammar.message m reader.old reader.new) }
    ensures stops { IfErr result (Refuses ((m : MessageNameType) (to : List TokenType) → ¬ grammar.message m reader.old to)) }
{
    let protocol = reader.word(alloc)?;
    reader.mark(b'.')?;
    let message = reader.word(alloc)?;
    Ok(MessageName { protocol, message })
}

/// Reads values in round brackets.
fn arguments(alloc: Global, reader: &mut LineTokens) -> Result<WrittenValues, ReadFailure>
    ensures read { IfOk result (λ vs. grammar.arguments vs reader.old reader.new) }
    ensures stops { IfErr result (Refuses ((vs : ValuesType) (to : List TokenType) → ¬ grammar.arguments vs reader.old to)) }
{
    reader.mark(b'(')?;
    listed(alloc, reader, Bracket::Round)
}

/// Reads a message with values.
fn call(alloc: Global, reader: &mut LineTokens) -> Result<WrittenMessage, ReadFailure>
    ensures read { IfOk result (λ c. grammar.call c reader.old reader.new) }
    ensures stops { IfErr result (Refuses ((c : CallType) (to : List TokenType) → ¬ grammar.call c reader.old to)) }
{
    let message = message(alloc, reader)?;
    let values = arguments(alloc, reader)?;
    Ok(WrittenMessage { message, values })
}

/// Returns whether two words are equal.
fn is(word: &[u8], other: &[u8]) -> bool
    ensures yes { result ≡ true → word.now ≡ other.now }
    ensures not { result ≡ false → word.now ≢ other.now }
{
    word == other
}

/// Reads the rest of a statement after the word of its side.
fn opening(alloc: Global, reader: &mut LineTokens, side: Side) -> Result<Statement, ReadFailure>
    ensures read { IfOk result (IsAfter (keywords.Side side) reader.old) }
    ensures stops { IfErr result (Refuses ((s : StatementType) → ¬ IsAfter (keywords.Side side) reader.old s)) }
{
    let word = reader.word(alloc)?;
    if is(word.as_slice(), b"main") {
        reader.end()?;
        Ok(Statement::Main(side))
    } else if is(word.as_slice(), b"on") {
        let message = message(alloc, reader)?;
        reader.end()?;
        Ok(Statement::On(side, message))
    } else {
        Err(ReadFailure::NoReading)
    }
}

/// Reads the rest of a statement after `send`.
fn sending(alloc: Global, reader: &mut LineTokens) -> Result<Statement, ReadFailure>
    ensures read { IfOk result (IsAfter keywords.Send reader.old) }
    ensures stops { IfErr result (Refuses ((s : StatementType) → ¬ IsAfter keywords.Send reader.old s)) }
{
    let who = reader.who(alloc)?;
    let call = call(alloc, reader)?;
    reader.end()?;
    Ok(Statement::Send(who, call))
}

/// Reads the rest of a statement after `new`.
fn making(alloc: Global, reader: &mut LineTokens) -> Result<Statement, ReadFailure>
    ensures read { IfOk result (IsAfter keywords.New reader.old) }
    ensures stops { IfErr result (Refuses ((s : StatementType) → ¬ IsAfter keywords.New reader.old s)) }
{
    let name = reader.name(alloc)?;
    let who = reader.who(alloc)?;
    let call = call(alloc, reader)?;
    reader.end()?;
    Ok(Statement::New(name, who, call))
}

/// Reads the rest of a statement after `let`.
fn naming(alloc: Global, reader: &mut LineTokens) -> Result<Statement, ReadFailure>
    ensures read { IfOk result (IsAfter keywords.Let reader.old) }
    ensures stops { IfErr result (Refuses ((s : StatementType) → ¬ IsAfter keywords.Let reader.old s)) }
{
    let name = reader.name(alloc)?;
    let who = reader.who(alloc)?;
    reader.end()?;
    Ok(Statement::Let(name, who))
}

/// Reads the rest of a statement after `resolve`.
fn resolving(alloc: Global, reader: &mut LineTokens) -> Result<Statement, ReadFailure>
    ensures read { IfOk result (IsAfter keywords.Resolve reader.old) }
    ensures stops { IfErr result (Refuses ((s : StatementType) → ¬ IsAfter keywords.Resolve reader.old s)) }
{
    if reader.is_at(b'(') {
        let values = arguments(alloc, reader)?;
        reader.end()?;
        return Ok(Statement::Resolve(values));
    }
    let name = reader.name(alloc)?;
    let call = call(alloc, reader)?;
    reader.end()?;
    Ok(Statement::ResolveKept(name, call))
}

/// Reads the rest of a statement after `reject`.
fn rejecting(alloc: Global, reader: &mut LineTokens) -> Result<Statement, ReadFailure>
    ensures read { IfOk result (IsAfter keywords.Reject reader.old) }
    ensures stops { IfErr result (Refuses ((s : StatementType) → ¬ IsAfter keywords.Reject reader.old s)) }
{
    if reader.is_empty() {
        return Ok(Statement::Reject);
    }
    let name = reader.name(alloc)?;
    let message = message(alloc, reader)?;
    reader.end()?;
    Ok(Statement::RejectKept(name, message))
}

/// Reads the rest of a statement after `keep`.
fn keeping(alloc: Global, reader: &mut LineTokens) -> Result<Statement, ReadFailure>
    ensures read { IfOk result (IsAfter keywords.Keep reader.old) }
    ensures stops { IfErr result (Refuses ((s : StatementType) → ¬ IsAfter keywords.Keep reader.old s)) }
{
    let name = reader.name(alloc)?;
    reader.end()?;
    Ok(Statement::Keep(name))
}

/// Reads the rest of a statement after `return`.
fn returning(alloc: Global, reader: &mut LineTokens) -> Result<Statement, ReadFailure>
    ensures read { IfOk result (IsAfter keywords.Return reader.old) }
    ensures stops { IfErr result (Refuses ((s : StatementType) → ¬ IsAfter keywords.Return reader.old s)) }
{
    let values = arguments(alloc, reader)?;
    reader.end()?;
    Ok(Statement::Return(values))
}

/// Returns the statement `end`, if no token is left.
fn ending(reader: &LineTokens) -> Result<Statement, ReadFailure>
    ensures read { IfOk result (IsAfter keywords.End reader.now) }
    ensures stops { IfErr result (Refuses ((s : StatementType) → ¬ IsAfter keywords.End reader.now s)) }
{
    reader.end()?;
    Ok(Statement::End)
}

/// Returns the statement `close`, if no token is left.
fn closing(reader: &LineTokens) -> Result<Statement, ReadFailure>
    ensures read { IfOk result (IsAfter keywords.Close reader.now) }
    ensures stops { IfErr result (Refuses ((s : StatementType) → ¬ IsAfter keywords.Close reader.now s)) }
{
    reader.end()?;
    Ok(Statement::Close)
}

/// Returns the statement `die`, if no token is left.
fn dying(reader: &LineTokens) -> Result<Statement, ReadFailure>
    ensures read { IfOk result (IsAfter keywords.Die reader.now) }
    ensures stops { IfErr result (Refuses ((s : StatementType) → ¬ IsAfter keywords.Die reader.now s)) }
{
    reader.end()?;
    Ok(Statement::Die)
}

/// Reads the rest of a statement after its keyword.
fn following(
    alloc: Global,
    reader: &mut LineTokens,
    keyword: Keyword,
) -> Result<Statement, ReadFailure>
    ensures read { IfOk result (IsAfter keyword reader.old) }
    ensures stops { IfErr result (Refuses ((s : StatementType) → ¬ IsAfter keyword reader.old s)) }
{
    match keyword {
        Keyword::Side(side) => opening(alloc, reader, side),
        Keyword::End => ending(reader),
        Keyword::Send => sending(alloc, reader),
        Keyword::New => making(alloc, reader),
        Keyword::Let => naming(alloc, reader),
        Keyword::Resolve => resolving(alloc, reader),
        Keyword::Reject => rejecting(alloc, reader),
        Keyword::Keep => keeping(alloc, reader),
        Keyword::Close => closing(reader),
        Keyword::Die => dying(reader),
        Keyword::Return => returning(alloc, reader),
    }
}

/// Returns whether a token opens values.
fn is_opening(token: &ScriptToken) -> bool
    ensures { result ≡ heads.is_opening token.now }
{
    match token {
        ScriptToken::Mark(b) => *b == b'(' || *b == b'[' || *b == b'{',
        _ => false,
    }
}

/// Returns whether a token closes values.
fn is_closing(token: &ScriptToken) -> bool
    ensures { result ≡ heads.is_closing token.now }
{
    match token {
        ScriptToken::Mark(b) => *b == b')' || *b == b']' || *b == b'}',
        _ => false,
    }
}

/// Returns how many tokens open values.
fn opening_count(tokens: &[ScriptToken]) -> usize
    ensures { result ≡ count_by heads.is_opening tokens.now }
{
    tokens.iter().filter(|t| is_opening(t)).count()
}

/// Returns how many tokens close values.
fn closing_count(tokens: &[ScriptToken]) -> usize
    ensures { result ≡ count_by heads.is_closing tokens.now }
{
    tokens.iter().filter(|t| is_closing(t)).count()
}

/// Returns whether fewer tokens close values than open them. Such tokens are not a statement. Without
/// this test, a line of marks that only open would need room on the stack for each of them.
fn is_unclosed(tokens: &[ScriptToken]) -> bool
    ensures { IsTrue result ↔ (count_by heads.is_closing tokens.now < count_by heads.is_opening tokens.now) }
{
    closing_count(tokens) < opening_count(tokens)
}

/// Reads the statement that these tokens spell.
pub fn statement(alloc: Global, tokens: &[ScriptToken]) -> Result<Statement, ReadFailure>
    ensures read { IfOk result (λ s. grammar.statement s tokens.now []) }
    ensures stops { IfErr result (Refuses ((s : StatementType) → ¬ grammar.statement s tokens.now [])) }
{
    if is_unclosed(tokens) {
        return Err(ReadFailure::NoReading);
    }
    let mut reader = LineTokens::new(tokens);
    let keyword = reader.keyword()?;
    following(alloc, &mut reader, keyword)
}
