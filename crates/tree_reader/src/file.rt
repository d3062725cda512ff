//! Reads a file, declaration by declaration.

ghost use Rattle.std.specs.Prelude.{◌≡◌, ◌≢◌, ◌<◌, ◌≤◌, IfOk, OnOk, IfErr, true, List, [], length};
ghost use Rattle.ipdl_syntax.specs.declared.tree.Attribute.{Attribute};
ghost use Rattle.ipdl_base.specs.declared.token.Token.{Token};
ghost use Rattle.ipdl_syntax.specs.Program.{Tree};
ghost use Rattle.ipdl_syntax.specs.declared.tree.FileKind.{FileKind};
ghost use Rattle.tree_reader.specs.declared.symbol.Symbol.TheVariants as symbols;
ghost use Rattle.tree_reader.specs.Files.{FileStops, may_come, begins_protocol, IsDraft, IsHeadedDraft, IsProtocolDraft};
ghost use Rattle.tree_reader.specs.declared.file.Draft.{Draft};
ghost use Rattle.tree_reader.specs.Symbols.{first_symbol};

use crate::attributes::bracketed;
use crate::heads::{
    include_decl, namespace_name, protocol_decl, struct_decl, union_decl, using_decl,
};
use crate::reader::TokenReader;
use crate::refusal::TreeRefusal;
use crate::symbol::Symbol;
use ipdl_base::{Items, Name, Semantics, Token};
use ipdl_syntax::{
    Attributes, FileKind, Include, ProtocolDecl, StructDecl, UnionDecl, Unit, Using,
};
use std::alloc::Global;

/// The part of a file that was read so far.
#[derive(Drop)]
struct Draft {
    includes: Vec<Include>,
    usings: Vec<Using>,
    structs: Vec<StructDecl>,
    unions: Vec<UnionDecl>,
    protocol: Option<ProtocolDecl>,
    /// The names of the open namespaces, from the outermost to the innermost.
    scope: Vec<Name>,
}

/// Returns the draft of a file before anything was read.
fn empty(alloc: Global) -> Draft
    ensures { (kind : FileKind) (tokens : List Token) → IsDraft kind tokens result tokens }
{
    Draft {
        includes: Vec::new(alloc),
        usings: Vec::new(alloc),
        structs: Vec::new(alloc),
        unions: Vec::new(alloc),
        protocol: None,
        scope: Vec::new(alloc),
    }
}

/// Returns whether the protocol may still come.
fn may_come(kind: FileKind, draft: &Draft) -> bool
    ensures { result ≡ may_come kind draft.now.protocol }
{
    kind == FileKind::Protocol && draft.protocol.is_none()
}

/// Adds the struct whose keyword is next, with the attributes before it.
fn add_struct(
    alloc: Global,
    reader: &mut TokenReader,
    draft: &mut Draft,
    attributes: Attributes,
) -> Result<(), TreeRefusal>
    requires { first_symbol reader.old ≡ symbols.Struct }
    ensures read { OnOk result ((kind : FileKind) (tokens : List Token)
        → IsHeadedDraft kind tokens attributes draft.old reader.old → IsDraft kind tokens draft.new reader.new) }
    ensures stops { IfErr result (λ e. (kind : FileKind) (tokens : List Token)
        → IsHeadedDraft kind tokens attributes draft.old reader.old → FileStops kind tokens e) }
    ensures less { OnOk result (length reader.new < length reader.old) }
{
    reader.pass();
    let found = struct_decl(alloc, reader, draft.scope.as_slice(), attributes)?;
    draft.structs.push(found)?;
    Ok(())
}

/// Adds the union whose keyword is next, with the attributes before it.
fn add_union(
    alloc: Global,
    reader: &mut TokenReader,
    draft: &mut Draft,
    attributes: Attributes,
) -> Result<(), TreeRefusal>
    requires { first_symbol reader.old ≡ symbols.Union }
    ensures read { OnOk result ((kind : FileKind) (tokens : List Token)
        → IsHeadedDraft kind tokens attributes draft.old reader.old → IsDraft kind tokens draft.new reader.new) }
    ensures stops { IfErr result (λ e. (kind : FileKind) (tokens : List Token)
        → IsHeadedDraft kind tokens attributes draft.old reader.old → FileStops kind tokens e) }
    ensures less { OnOk result (length reader.new < length reader.old) }
{
    reader.pass();
    let found = union_decl(alloc, reader, draft.scope.as_slice(), attributes)?;
    draft.unions.push(found)?;
    Ok(())
}

/// Adds the using whose keyword is next, with the attributes before it. No namespace is open.
fn add_using(
    alloc: Global,
    reader: &mut TokenReader,
    draft: &mut Draft,
    attributes: Attributes,
) -> Result<(), TreeRefusal>
    requires using { first_symbol reader.old ≡ symbols.Using }
    requires outside { length draft.old.scope.items ≡ 0 }
    ensures read { OnOk result ((kind : FileKind) (tokens : List Token)
        → IsHeadedDraft kind tokens attributes draft.old reader.old → IsDraft kind tokens draft.new reader.new) }
    ensures stops { IfErr result (λ e. (kind : FileKind) (tokens : List Token)
        → IsHeadedDraft kind tokens attributes draft.old reader.old → FileStops kind tokens e) }
    ensures less { OnOk result (length reader.new < length reader.old) }
{
    reader.pass();
    let found = using_decl(alloc, reader, attributes)?;
    draft.usings.push(found)?;
    Ok(())
}

/// Takes the word that gives the semantics of the protocol that comes next, if there is one.
/// Without it the protocol is async.
fn protocol_semantics(reader: &mut TokenReader) -> Semantics
    requires { begins_protocol (first_symbol reader.old) ≡ true }
    ensures drafted { (kind : FileKind) (tokens : List Token) (list : List Attribute) (draft : Draft)
        → may_come kind draft.protocol ≡ true → IsHeadedDraft kind tokens list draft reader.old
        → IsProtocolDraft kind tokens list result draft reader.new }
    ensures fewer { length reader.new ≤ length reader.old }
{
    if reader.skips(Symbol::Sync) {
        return Semantics::Sync;
    }
    reader.skips(Symbol::Async);
    Semantics::Async
}

/// Adds the protocol whose keyword must come next, with the attributes and the word before it.
fn add_protocol(
    alloc: Global,
    reader: &mut TokenReader,
    draft: &mut Draft,
    attributes: Attributes,
    semantics: Semantics,
) -> Result<(), TreeRefusal>
    ensures read { OnOk result ((kind : FileKind) (tokens : List Token)
        → IsProtocolDraft kind tokens attributes semantics draft.old reader.old
        → IsDraft kind tokens draft.new reader.new) }
    ensures stops { IfErr result (λ e. (kind : FileKind) (tokens : List Token)
        → IsProtocolDraft kind tokens attributes semantics draft.old reader.old → FileStops kind tokens e) }
    ensures less { OnOk result (length reader.new < length reader.old) }
{
    reader.take(Symbol::Protocol)?;
    let found = protocol_decl(alloc, reader, draft.scope.as_slice(), attributes, semantics)?;
    draft.protocol = Some(found);
    Ok(())
}

/// Adds the declaration that comes next, with the attributes before it.
fn headed(
    alloc: Global,
    reader: &mut TokenReader,
    draft: &mut Draft,
    kind: FileKind,
    attributes: Attributes,
) -> Result<(), TreeRefusal>
    ensures read { OnOk result ((tokens : List Token) → IsHeadedDraft kind tokens attributes draft.old reader.old → IsDraft kind tokens draft.new reader.new) }
    ensures stops { IfErr result (λ e. (tokens : List Token) → IsHeadedDraft kind tokens attributes draft.old reader.old → FileStops kind tokens e) }
    ensures less { OnOk result (length reader.new < length reader.old) }
{
    match reader.symbol() {
        Symbol::Struct => add_struct(alloc, reader, draft, attributes),
        Symbol::Union => add_union(alloc, reader, draft, attributes),
        Symbol::Using if draft.scope.is_empty() => add_using(alloc, reader, draft, attributes),
        Symbol::Protocol | Symbol::Async | Symbol::Sync if may_come(kind, draft) => {
            let semantics = protocol_semantics(reader);
            add_protocol(alloc, reader, draft, attributes, semantics)
        }
        _ => Err(reader.refusal()),
    }
}

/// Adds the declaration whose attributes come next.
fn attributed(
    alloc: Global,
    reader: &mut TokenReader,
    draft: &mut Draft,
    kind: FileKind,
) -> Result<(), TreeRefusal>
    requires { first_symbol reader.old ≡ symbols.OpenBracket }
    ensures read { OnOk result ((tokens : List Token) → IsDraft kind tokens draft.old reader.old → IsDraft kind tokens draft.new reader.new) }
    ensures stops { IfErr result (λ e. (tokens : List Token) → IsDraft kind tokens draft.old reader.old → FileStops kind tokens e) }
    ensures less { OnOk result (length reader.new < length reader.old) }
{
    reader.pass();
    let attributes = bracketed(alloc, reader)?;
    headed(alloc, reader, draft, kind, attributes)
}

/// Adds the include whose keyword is next. No namespace is open.
fn add_include(
    alloc: Global,
    reader: &mut TokenReader,
    draft: &mut Draft,
) -> Result<(), TreeRefusal>
    requires including { first_symbol reader.old ≡ symbols.Include }
    requires outside { length draft.old.scope.items ≡ 0 }
    ensures read { OnOk result ((kind : FileKind) (tokens : List Token) → IsDraft kind tokens draft.old reader.old → IsDraft kind tokens draft.new reader.new) }
    ensures stops { IfErr result (λ e. (kind : FileKind) (tokens : List Token) → IsDraft kind tokens draft.old reader.old → FileStops kind tokens e) }
    ensures less { OnOk result (length reader.new < length reader.old) }
{
    reader.pass();
    let found = include_decl(alloc, reader)?;
    draft.includes.push(found)?;
    Ok(())
}

/// Opens the namespace whose keyword is next. Fewer than 16 are open.
fn open_namespace(
    alloc: Global,
    reader: &mut TokenReader,
    draft: &mut Draft,
) -> Result<(), TreeRefusal>
    requires opening { first_symbol reader.old ≡ symbols.Namespace }
    requires room { length draft.old.scope.items < 16 }
    ensures read { OnOk result ((kind : FileKind) (tokens : List Token) → IsDraft kind tokens draft.old reader.old → IsDraft kind tokens draft.new reader.new) }
    ensures stops { IfErr result (λ e. (kind : FileKind) (tokens : List Token) → IsDraft kind tokens draft.old reader.old → FileStops kind tokens e) }
    ensures less { OnOk result (length reader.new < length reader.old) }
{
    reader.pass();
    let name = namespace_name(alloc, reader)?;
    draft.scope.push(name)?;
    Ok(())
}

/// Closes the innermost namespace, whose `}` is next.
fn close_namespace(reader: &mut TokenReader, draft: &mut Draft)
    requires closing { first_symbol reader.old ≡ symbols.CloseBrace }
    requires inside { 0 < length draft.old.scope.items }
    ensures read { (kind : FileKind) (tokens : List Token) → IsDraft kind tokens draft.old reader.old → IsDraft kind tokens draft.new reader.new }
    ensures less { length reader.new < length reader.old }
{
    reader.pass();
    draft.scope.pop();
}

/// Adds the next declaration, or opens or closes a namespace.
fn declaration(
    alloc: Global,
    reader: &mut TokenReader,
    draft: &mut Draft,
    kind: FileKind,
) -> Result<(), TreeRefusal>
    requires { first_symbol reader.old ≢ symbols.End }
    ensures read { OnOk result ((tokens : List Token) → IsDraft kind tokens draft.old reader.old → IsDraft kind tokens draft.new reader.new) }
    ensures stops { IfErr result (λ e. (tokens : List Token) → IsDraft kind tokens draft.old reader.old → FileStops kind tokens e) }
    ensures less { OnOk result (length reader.new < length reader.old) }
{
    match reader.symbol() {
        Symbol::OpenBracket => attributed(alloc, reader, draft, kind),
        Symbol::Include if draft.scope.is_empty() => add_include(alloc, reader, draft),
        Symbol::Namespace if draft.scope.len() < 16 => open_namespace(alloc, reader, draft),
        Symbol::CloseBrace if !draft.scope.is_empty() => {
            close_namespace(reader, draft);
            Ok(())
        }
        _ => headed(alloc, reader, draft, kind, Items::from_vec(Vec::new(alloc))),
    }
}

/// Returns the tree of a draft after all tokens are read.
fn finish(draft: Draft, kind: FileKind) -> Result<Unit, TreeRefusal>
    ensures read { IfOk result (λ unit. (tokens : List Token) → IsDraft kind tokens draft [] → Tree kind tokens unit) }
    ensures stops { IfErr result (λ e. (tokens : List Token) → IsDraft kind tokens draft [] → FileStops kind tokens e) }
{
    if may_come(kind, &draft) || !draft.scope.is_empty() {
        return Err(TreeRefusal::Left(0));
    }
    Ok(Unit {
        includes: Items::from_vec(draft.includes),
        usings: Items::from_vec(draft.usings),
        structs: Items::from_vec(draft.structs),
        unions: Items::from_vec(draft.unions),
        protocol: draft.protocol,
    })
}

/// Reads all tokens of a file of this kind, and returns their tree (docs/grammar.md). If they have
/// no tree, the refusal has the number of tokens that are left where no file can continue. Memory
/// may run out in any case.
pub fn read_file(alloc: Global, tokens: &[Token], kind: FileKind) -> Result<Unit, TreeRefusal>
    ensures read { IfOk result (Tree kind tokens.now) }
    ensures stops { IfErr result (FileStops kind tokens.now) }
{
    let mut reader = TokenReader::new(tokens);
    let mut draft = empty(alloc);
    'declarations: while reader.symbol() != Symbol::End {
        declaration(alloc, &mut reader, &mut draft, kind)?;
    }
    finish(draft, kind)
}
