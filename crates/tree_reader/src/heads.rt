//! Reads structs, unions, protocols, usings, includes and namespaces after their keywords.

ghost use Rattle.std.specs.Prelude.{◌≡◌, ◌<◌, ◌≤◌, IfOk, OnOk, IfErr, [], ◌∷◌, ◌++◌, length, codes};
ghost use Rattle.ipdl_base.specs.Words.{joined};
ghost use Rattle.ipdl_syntax.specs.Grammar.{declared, foreign_name, included, whole_name};
ghost use Rattle.ipdl_syntax.specs.Parts.{◌⨾◌, at, either, nothing, mark, reserved, word};
ghost use Rattle.tree_reader.specs.declared.symbol.Symbol.TheVariants.{OpenBrace, Semicolon, Word, From, Quoted};
ghost use Rattle.tree_reader.specs.Ending as ending;
ghost use Rattle.tree_reader.specs.Machine.{take, typed, fielded, componented, managing, using_named, using_word, include_named};
ghost use Rattle.tree_reader.specs.Reading.{Turns, Stops, IsStructAfter, IsUnionAfter, IsUsingAfter, IsProtocolAfter, from_file};

use crate::body::{ProtocolBody, protocol_body};
use crate::fields::{components, fields};
use crate::names::{QualifiedName, name_with_argument};
use crate::reader::TokenReader;
use crate::refusal::TreeRefusal;
use crate::symbol::Symbol;
use ipdl_base::{Name, Semantics};
use ipdl_syntax::{
    Attributes, Include, IncludeKind, NameAt, ProtocolDecl, StructDecl, UnionDecl, Using,
};
use std::alloc::{AllocError, Global};

/// Returns the full name of a word in these namespaces.
fn full_name(alloc: Global, scope: &[Name], name: &Name) -> Result<Name, AllocError>
    ensures { IfOk result (λ full. full ≡ joined (scope.now ++ name.now ∷ [])) }
{
    let mut full = Name::empty();
    'scope: for outer in scope {
        full.append(alloc, outer.as_slice())?;
        full.append(alloc, b"::")?;
    }
    full.append(alloc, name.as_slice())?;
    Ok(full)
}

/// Takes the name that a declaration in these namespaces gives, and the `{` after it.
fn declared(alloc: Global, reader: &mut TokenReader, scope: &[Name]) -> Result<NameAt, TreeRefusal>
    ensures read { IfOk result (λ n. (declared scope.now n.name n.place ⨾ mark (codes "{")) reader.old reader.new) }
    ensures turns { OnOk result (Turns (take Word ∷ take OpenBrace ∷ []) reader.old [] reader.new) }
    ensures stops { IfErr result (Stops (take Word ∷ take OpenBrace ∷ []) reader.old) }
    ensures less { OnOk result (length reader.new < length reader.old) }
{
    let NameAt { name, place } = reader.word(alloc)?;
    reader.take(Symbol::OpenBrace)?;
    Ok(NameAt {
        name: full_name(alloc, scope, &name)?,
        place,
    })
}

/// Takes a struct after its keyword.
pub(crate) fn struct_decl(
    alloc: Global,
    reader: &mut TokenReader,
    scope: &[Name],
    attributes: Attributes,
) -> Result<StructDecl, TreeRefusal>
    ensures read { IfOk result (λ s. IsStructAfter scope.now attributes s reader.old reader.new) }
    ensures turns { OnOk result (Turns (take Word ∷ take OpenBrace ∷ fielded ∷ []) reader.old [] reader.new) }
    ensures stops { IfErr result (Stops (take Word ∷ take OpenBrace ∷ fielded ∷ []) reader.old) }
    ensures less { OnOk result (length reader.new < length reader.old) }
{
    let NameAt { name, place } = declared(alloc, reader, scope)?;
    let fields = fields(alloc, reader)?;
    Ok(StructDecl {
        full: name,
        place,
        fields,
        attributes,
    })
}

/// Takes a union after its keyword.
pub(crate) fn union_decl(
    alloc: Global,
    reader: &mut TokenReader,
    scope: &[Name],
    attributes: Attributes,
) -> Result<UnionDecl, TreeRefusal>
    ensures read { IfOk result (λ u. IsUnionAfter scope.now attributes u reader.old reader.new) }
    ensures turns { OnOk result (Turns (take Word ∷ take OpenBrace ∷ typed 4 ending.Semicolon ∷ componented ∷ []) reader.old [] reader.new) }
    ensures stops { IfErr result (Stops (take Word ∷ take OpenBrace ∷ typed 4 ending.Semicolon ∷ componented ∷ []) reader.old) }
    ensures less { OnOk result (length reader.new < length reader.old) }
{
    let NameAt { name, place } = declared(alloc, reader, scope)?;
    let components = components(alloc, reader)?;
    Ok(UnionDecl {
        full: name,
        place,
        components,
        attributes,
    })
}

/// Takes a protocol after its keyword.
pub(crate) fn protocol_decl(
    alloc: Global,
    reader: &mut TokenReader,
    scope: &[Name],
    attributes: Attributes,
    semantics: Semantics,
) -> Result<ProtocolDecl, TreeRefusal>
    ensures read { IfOk result (λ p. IsProtocolAfter scope.now attributes semantics p reader.old reader.new) }
    ensures turns { OnOk result (Turns (take Word ∷ take OpenBrace ∷ managing ∷ []) reader.old [] reader.new) }
    ensures stops { IfErr result (Stops (take Word ∷ take OpenBrace ∷ managing ∷ []) reader.old) }
    ensures less { OnOk result (length reader.new < length reader.old) }
{
    let NameAt { name, place } = declared(alloc, reader, scope)?;
    let ProtocolBody {
        managers,
        manages,
        messages,
    } = protocol_body(alloc, reader)?;
    Ok(ProtocolDecl {
        full: name,
        place,
        semantics,
        managers,
        manages,
        messages,
        attributes,
    })
}

/// Takes the word before the name of a using, if there is one.
fn kind_word(reader: &mut TokenReader)
    ensures read { (either nothing (either (reserved (codes "class")) (reserved (codes "struct")))) reader.old reader.new }
    ensures turns { Turns (using_named ∷ []) reader.old (using_word ∷ []) reader.new }
    ensures fewer { length reader.new ≤ length reader.old }
{
    if !reader.skips(Symbol::Class) {
        reader.skips(Symbol::Struct);
    }
}

/// Returns the full text of a name and its argument.
fn whole_name(alloc: Global, name: Name, inner: Option<Name>) -> Result<Name, AllocError>
    ensures { IfOk result (λ full. full ≡ whole_name name inner) }
{
    match inner {
        Some(inner) => {
            let mut full = name;
            full.append(alloc, b"<")?;
            full.append(alloc, inner.as_slice())?;
            full.append(alloc, b">")?;
            Ok(full)
        }
        None => Ok(name),
    }
}

/// Takes the file that a using names, to the semicolon.
fn from_file(reader: &mut TokenReader) -> Result<(), TreeRefusal>
    ensures read { OnOk result (from_file reader.old reader.new) }
    ensures turns { OnOk result (Turns (take From ∷ take Quoted ∷ take Semicolon ∷ []) reader.old [] reader.new) }
    ensures stops { IfErr result (Stops (take From ∷ take Quoted ∷ take Semicolon ∷ []) reader.old) }
    ensures less { OnOk result (length reader.new < length reader.old) }
{
    reader.take(Symbol::From)?;
    reader.take(Symbol::Quoted)?;
    reader.take(Symbol::Semicolon)
}

/// Takes a using after its keyword.
pub(crate) fn using_decl(
    alloc: Global,
    reader: &mut TokenReader,
    attributes: Attributes,
) -> Result<Using, TreeRefusal>
    ensures read { IfOk result (λ u. IsUsingAfter attributes u reader.old reader.new) }
    ensures turns { OnOk result (Turns (using_named ∷ []) reader.old [] reader.new) }
    ensures stops { IfErr result (Stops (using_named ∷ []) reader.old) }
    ensures less { OnOk result (length reader.new < length reader.old) }
{
    kind_word(reader);
    let QualifiedName { name, inner, place } = name_with_argument(alloc, reader)?;
    from_file(reader)?;
    Ok(Using {
        full: whole_name(alloc, name, inner)?,
        place,
        attributes,
    })
}

/// Takes the name of an include.
fn included(alloc: Global, reader: &mut TokenReader) -> Result<Include, TreeRefusal>
    ensures read { IfOk result (λ i. included i.kind i.name i.place reader.old reader.new) }
    ensures turns { OnOk result (Turns (include_named ∷ []) reader.old (take Semicolon ∷ []) reader.new) }
    ensures stops { IfErr result (Stops (include_named ∷ []) reader.old) }
    ensures less { OnOk result (length reader.new < length reader.old) }
{
    match reader.symbol() {
        Symbol::Protocol => {
            reader.pass();
            let NameAt { name, place } = reader.word(alloc)?;
            Ok(Include {
                kind: IncludeKind::Protocol,
                name,
                place,
            })
        }
        Symbol::Word => {
            let NameAt { name, place } = reader.text(alloc)?;
            Ok(Include {
                kind: IncludeKind::Header,
                name,
                place,
            })
        }
        Symbol::Quoted => {
            let NameAt { name, place } = reader.text(alloc)?;
            Ok(Include {
                kind: IncludeKind::Quoted,
                name,
                place,
            })
        }
        _ => Err(reader.refusal()),
    }
}

/// Takes an include after its keyword.
pub(crate) fn include_decl(alloc: Global, reader: &mut TokenReader) -> Result<Include, TreeRefusal>
    ensures read { IfOk result (λ i. (included i.kind i.name i.place ⨾ mark (codes ";")) reader.old reader.new) }
    ensures turns { OnOk result (Turns (include_named ∷ []) reader.old [] reader.new) }
    ensures stops { IfErr result (Stops (include_named ∷ []) reader.old) }
    ensures less { OnOk result (length reader.new < length reader.old) }
{
    let include = included(alloc, reader)?;
    reader.take(Symbol::Semicolon)?;
    Ok(include)
}

/// Takes the name of a namespace after its keyword, and the `{` after it.
pub(crate) fn namespace_name(alloc: Global, reader: &mut TokenReader) -> Result<Name, TreeRefusal>
    ensures read { IfOk result (λ name. (word name ⨾ mark (codes "{")) reader.old reader.new) }
    ensures turns { OnOk result (Turns (take Word ∷ take OpenBrace ∷ []) reader.old [] reader.new) }
    ensures stops { IfErr result (Stops (take Word ∷ take OpenBrace ∷ []) reader.old) }
    ensures less { OnOk result (length reader.new < length reader.old) }
{
    let NameAt { name, .. } = reader.word(alloc)?;
    reader.take(Symbol::OpenBrace)?;
    Ok(name)
}
