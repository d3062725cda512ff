//! The tree of a file, one type for each form of the grammar.

use ipdl_base::{Direction, Items, Name, Place, Semantics};

/// The two kinds of file. A protocol file defines one protocol, a header defines no protocol.
#[derive(Clone, Copy, Debug, PartialEq, Eq)]
pub enum FileKind {
    /// A `.ipdl` file.
    Protocol,
    /// A `.ipdlh` file.
    Header,
}

/// The tree of a file: what the file declares. Each list is in text order.
#[derive(Drop)]
pub struct Unit {
    /// The includes.
    pub includes: Includes,
    /// The usings.
    pub usings: Usings,
    /// The structs.
    pub structs: StructDecls,
    /// The unions.
    pub unions: UnionDecls,
    /// The protocol of a protocol file, or `None` for a header.
    pub protocol: Option<ProtocolDecl>,
}

/// What an include names.
#[derive(Clone, Copy, Debug, PartialEq, Eq)]
pub enum IncludeKind {
    /// `include protocol NAME;`
    Protocol,
    /// `include NAME;`
    Header,
    /// `include "TEXT";`. No file is read for it.
    Quoted,
}

/// An include, with the place of its name. A quoted name keeps its quotes.
#[derive(Drop)]
pub struct Include {
    pub kind: IncludeKind,
    pub name: Name,
    pub place: Place,
}

/// A type that another language declares, with its full text and the place of this text.
#[derive(Drop)]
pub struct Using {
    pub full: Name,
    pub place: Place,
    pub attributes: Attributes,
}

/// A struct, with its full name and the place of its name.
#[derive(Drop)]
pub struct StructDecl {
    pub full: Name,
    pub place: Place,
    /// The fields, which have no attributes.
    pub fields: Params,
    pub attributes: Attributes,
}

/// A union, with its full name and the place of its name.
#[derive(Drop)]
pub struct UnionDecl {
    pub full: Name,
    pub place: Place,
    pub components: TypeSpecs,
    pub attributes: Attributes,
}

/// A protocol, with its full name and the place of its name. Without `sync` it is async.
#[derive(Drop)]
pub struct ProtocolDecl {
    pub full: Name,
    pub place: Place,
    pub semantics: Semantics,
    /// The protocols that manage this one.
    pub managers: NamesAt,
    /// The protocols that this one manages.
    pub manages: NamesAt,
    pub messages: MessageDecls,
    pub attributes: Attributes,
}

/// A name and its place.
#[derive(Drop)]
pub struct NameAt {
    pub name: Name,
    pub place: Place,
}

/// A message, with the direction of its section and the place of its name.
#[derive(Drop)]
pub struct MessageDecl {
    pub name: Name,
    pub place: Place,
    pub direction: Direction,
    pub semantics: Semantics,
    pub params: Params,
    /// The parameters of its reply, or `None` for a message without `returns`.
    pub returns: Option<Params>,
    pub attributes: Attributes,
}

/// A parameter, a return or a field, with the place of its name.
#[derive(Drop)]
pub struct Param {
    pub spec: TypeSpec,
    pub name: Name,
    pub place: Place,
    pub attributes: Attributes,
}

/// A type as it is written. Its place is that of its first token after `nullable`.
#[cycle(type_spec)]
#[derive(Drop)]
pub struct TypeSpec {
    /// Whether the type begins with `nullable`.
    pub nullable: bool,
    pub base: Base,
    /// The suffixes from left to right.
    pub suffixes: Suffixes,
    pub place: Place,
}

/// What the suffixes of a type apply to.
#[cycle(type_spec)]
#[derive(Drop)]
pub enum Base {
    /// A name with its namespaces, and the argument between `<` and `>`, if it has one.
    Named(Name, Option<Name>),
    /// `UniquePtr` of a type.
    Unique(Box<TypeSpec>),
}

/// A suffix of a type.
#[derive(Clone, Copy, Debug, PartialEq, Eq)]
pub enum Suffix {
    /// `[]`
    Array,
    /// `?`
    Maybe,
}

/// An attribute, with the place of its name. A quoted value keeps its quotes.
#[derive(Drop)]
pub struct Attribute {
    pub name: Name,
    pub value: Option<Name>,
    pub place: Place,
}

/// A list of includes.
pub type Includes = Items<Include>;

/// A list of usings.
pub type Usings = Items<Using>;

/// A list of structs.
pub type StructDecls = Items<StructDecl>;

/// A list of unions.
pub type UnionDecls = Items<UnionDecl>;

/// A list of names with their places.
pub type NamesAt = Items<NameAt>;

/// A list of messages.
pub type MessageDecls = Items<MessageDecl>;

/// A list of parameters.
pub type Params = Items<Param>;

/// A list of types.
pub type TypeSpecs = Items<TypeSpec>;

/// A list of suffixes.
pub type Suffixes = Items<Suffix>;

/// A list of attributes.
pub type Attributes = Items<Attribute>;
