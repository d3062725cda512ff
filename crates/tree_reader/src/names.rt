//! Reads names with namespaces and arguments.

ghost use Rattle.std.specs.Prelude.{◌≡◌, ◌≢◌, ◌<◌, ◌≤◌, IfOk, OnOk, IfErr, List, [], ◌∷◌, length, codes};
ghost use Rattle.ipdl_syntax.specs.Grammar.{qualified, argument, named};
ghost use Rattle.ipdl_syntax.specs.Parts.{◌⨾◌, at, mark};
ghost use Rattle.tree_reader.specs.declared.symbol.Symbol.TheVariants.{Colons, Word};
ghost use Rattle.tree_reader.specs.Machine.{Form, take, argument_name};
ghost use Rattle.tree_reader.specs.Reading.{Turns, Stops, AddsWords, IsNaming, MayHaveArgument};
ghost use Rattle.tree_reader.specs.Symbols.{first_symbol};

use crate::reader::TokenReader;
use crate::refusal::TreeRefusal;
use crate::symbol::Symbol;
use ipdl_base::{Name, Place};
use ipdl_syntax::NameAt;
use std::alloc::Global;

/// Takes the words of a name after its first one, each with the `::` before it, and appends them to
/// `text`.
fn more_words(alloc: Global, reader: &mut TokenReader, text: &mut Name) -> Result<(), TreeRefusal>
    ensures read { OnOk result (AddsWords text.old text.new reader.old reader.new) }
    ensures ending { OnOk result (first_symbol reader.new ≢ Colons) }
    ensures turns { OnOk result ((f : Form) → IsNaming f → Turns (f ∷ []) reader.old (f ∷ []) reader.new) }
    ensures stops { IfErr result (λ e. (f : Form) → IsNaming f → Stops (f ∷ []) reader.old e) }
    ensures fewer { OnOk result (length reader.new ≤ length reader.old) }
{
    'words: while reader.skips(Symbol::Colons) {
        text.append(alloc, b"::")?;
        let word = reader.word(alloc)?;
        text.append(alloc, word.name.as_slice())?;
    }
    Ok(())
}

/// Takes a name with its namespaces. Its place is that of its first word.
#[inline(always)]
fn qualified(alloc: Global, reader: &mut TokenReader) -> Result<NameAt, TreeRefusal>
    ensures read { IfOk result (λ n. at n.place (qualified n.name) reader.old reader.new) }
    ensures ending { OnOk result (first_symbol reader.new ≢ Colons) }
    ensures turns { OnOk result ((f : Form) → IsNaming f → Turns (take Word ∷ f ∷ []) reader.old (f ∷ []) reader.new) }
    ensures stops { IfErr result (λ e. (f : Form) → IsNaming f → Stops (take Word ∷ f ∷ []) reader.old e) }
    ensures less { OnOk result (length reader.new < length reader.old) }
{
    let NameAt { mut name, place } = reader.word(alloc)?;
    more_words(alloc, reader, &mut name)?;
    Ok(NameAt { name, place })
}

/// Takes the argument of a name after its `<`, to its `>`.
fn argument_name(alloc: Global, reader: &mut TokenReader) -> Result<Name, TreeRefusal>
    ensures read { IfOk result (λ name. (qualified name ⨾ mark (codes ">")) reader.old reader.new) }
    ensures turns { OnOk result (Turns (argument_name ∷ []) reader.old [] reader.new) }
    ensures stops { IfErr result (Stops (argument_name ∷ []) reader.old) }
    ensures less { OnOk result (length reader.new < length reader.old) }
{
    let NameAt { name, .. } = qualified(alloc, reader)?;
    reader.take(Symbol::Greater)?;
    Ok(name)
}

/// Takes the argument of a name, if there is one.
fn argument(alloc: Global, reader: &mut TokenReader) -> Result<Option<Name>, TreeRefusal>
    requires { first_symbol reader.old ≢ Colons }
    ensures read { IfOk result (λ inner. argument inner reader.old reader.new) }
    ensures turns { OnOk result ((f : Form) (others : List Form) → MayHaveArgument f others → Turns (f ∷ []) reader.old others reader.new) }
    ensures stops { IfErr result (λ e. (f : Form) (others : List Form) → MayHaveArgument f others → Stops (f ∷ []) reader.old e) }
    ensures fewer { OnOk result (length reader.new ≤ length reader.old) }
{
    if reader.skips(Symbol::Less) {
        Ok(Some(argument_name(alloc, reader)?))
    } else {
        Ok(None)
    }
}

/// A name with its namespaces, and its argument, if it has one. Its place is that of its first word.
#[derive(Drop)]
pub(crate) struct QualifiedName {
    pub(crate) name: Name,
    pub(crate) inner: Option<Name>,
    pub(crate) place: Place,
}

/// Takes a name, perhaps with an argument.
#[inline(always)]
pub(crate) fn name_with_argument(
    alloc: Global,
    reader: &mut TokenReader,
) -> Result<QualifiedName, TreeRefusal>
    ensures read { IfOk result (λ n. at n.place (named n.name n.inner) reader.old reader.new) }
    ensures turns { OnOk result ((f : Form) (others : List Form) → IsNaming f → MayHaveArgument f others
        → Turns (take Word ∷ f ∷ []) reader.old others reader.new) }
    ensures stops { IfErr result (λ e. (f : Form) (others : List Form) → IsNaming f → MayHaveArgument f others → Stops (take Word ∷ f ∷ []) reader.old e) }
    ensures less { OnOk result (length reader.new < length reader.old) }
{
    let NameAt { name, place } = qualified(alloc, reader)?;
    let inner = argument(alloc, reader)?;
    Ok(QualifiedName { name, inner, place })
}
