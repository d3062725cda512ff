//! Reads values and lists of values.

ghost use Rattle.std.specs.Prelude.{◌≡◌, ◌<◌, length, List, IfOk, IfErr, OnOk};
ghost use Rattle.script_reader.specs.declared.token.ScriptToken.{ScriptToken as TokenType};
ghost use Rattle.script_reader.specs.declared.written.Atom.{Atom as AtomType};
ghost use Rattle.script_reader.specs.declared.written.WrittenValue.{WrittenValue as WrittenType};
ghost use Rattle.script_reader.specs.declared.stop.ReadFailure.TheVariants.{NoMemory};
ghost use Rattle.script_reader.specs.Parts.{single};
ghost use Rattle.script_reader.specs.declared.written.WrittenValues.{WrittenValues as ValuesType};
ghost use Rattle.script_reader.specs.Grammar as grammar;
ghost use Rattle.script_reader.specs.Reading.{Refuses};

use crate::parts::Bracket;
use crate::reader::{LineTokens, ValueForm};
use crate::stop::ReadFailure;
use crate::written::{WrittenValue, WrittenValues};
use std::alloc::Global;

/// Returns the mark that closes values.
fn closing(bracket: Bracket) -> u8
    ensures { result ≡ grammar.closing bracket }
{
    match bracket {
        Bracket::Round => b')',
        Bracket::Square => b']',
        Bracket::Curly => b'}',
    }
}

/// Puts a value in a box. Kept out of the recursive functions, so that these need little room on the
/// stack.
#[inline(never)]
fn boxed(alloc: Global, value: WrittenValue) -> Result<Box<WrittenValue>, ReadFailure>
    ensures ok { IfOk result (λ b. b.value ≡ value) }
    ensures memory { IfErr result (λ e. e ≡ NoMemory) }
{
    Ok(Box::new(alloc, value)?)
}

/// Reads a value of one token. Kept out of the recursive functions, so that these need little room on
/// the stack.
#[inline(never)]
fn atom(alloc: Global, reader: &mut LineTokens) -> Result<Box<WrittenValue>, ReadFailure>
    ensures read { IfOk result (λ v. grammar.value v.value reader.old reader.new) }
    ensures stops { IfErr result (Refuses ((a : AtomType) (to : List TokenType) → ¬ single grammar.atom_of a reader.old to)) }
    ensures less { OnOk result (length reader.new < length reader.old) }
{
    let atom = reader.atom(alloc)?;
    boxed(alloc, WrittenValue::Atom(atom))
}

/// Reads a value.
#[cycle(values)]
fn value(alloc: Global, reader: &mut LineTokens) -> Result<Box<WrittenValue>, ReadFailure>
    ensures read { IfOk result (λ v. grammar.value v.value reader.old reader.new) }
    ensures stops { IfErr result (Refuses ((v : WrittenType) (to : List TokenType) → ¬ grammar.value v reader.old to)) }
    ensures less { OnOk result (length reader.new < length reader.old) }
{
    match reader.begin() {
        ValueForm::Struct => {
            reader.pass();
            let fields = listed(alloc, reader, Bracket::Curly)?;
            boxed(alloc, WrittenValue::Struct(fields))
        }
        ValueForm::Array => {
            reader.pass();
            let elements = listed(alloc, reader, Bracket::Square)?;
            boxed(alloc, WrittenValue::Array(elements))
        }
        ValueForm::Union(index) => {
            reader.pass();
            let held = value(alloc, reader)?;
            boxed(alloc, WrittenValue::Union(index, held))
        }
        ValueForm::Held => {
            reader.pass();
            let held = value(alloc, reader)?;
            boxed(alloc, WrittenValue::Held(held))
        }
        ValueForm::Atom => atom(alloc, reader),
    }
}

/// Reads values, and the mark that closes them.
#[cycle(values)]
pub fn listed(
    alloc: Global,
    reader: &mut LineTokens,
    close: Bracket,
) -> Result<WrittenValues, ReadFailure>
    ensures read { IfOk result (λ vs. grammar.listed close vs reader.old reader.new) }
    ensures stops { IfErr result (Refuses ((vs : ValuesType) (to : List TokenType) → ¬ grammar.listed close vs reader.old to)) }
    ensures less { OnOk result (length reader.new < length reader.old) }
{
    if reader.skips(closing(close)) {
        return Ok(WrittenValues::Nothing);
    }
    let first = value(alloc, reader)?;
    let rest = more(alloc, reader, close)?;
    Ok(WrittenValues::First(first, Box::new(alloc, rest)?))
}

/// Reads the values after the first one, and the mark that closes them.
#[cycle(values)]
fn more(
    alloc: Global,
    reader: &mut LineTokens,
    close: Bracket,
) -> Result<WrittenValues, ReadFailure>
    ensures read { IfOk result (λ vs. grammar.more close vs reader.old reader.new) }
    ensures stops { IfErr result (Refuses ((vs : ValuesType) (to : List TokenType) → ¬ grammar.more close vs reader.old to)) }
    ensures less { OnOk result (length reader.new < length reader.old) }
{
    if reader.skips(closing(close)) {
        return Ok(WrittenValues::Nothing);
    }
    reader.mark(b',')?;
    let first = value(alloc, reader)?;
    let rest = more(alloc, reader, close)?;
    Ok(WrittenValues::First(first, Box::new(alloc, rest)?))
}
