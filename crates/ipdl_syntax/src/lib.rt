//! The tree of a file, the grammar that relates trees to tokens, and the programs that files make.
#![tactic(auto)]

mod program;
mod tree;

pub use program::{Entry, Program};
pub use tree::{
    Attribute, Attributes, Base, FileKind, Include, IncludeKind, Includes, MessageDecl,
    MessageDecls, NameAt, NamesAt, Param, Params, ProtocolDecl, StructDecl, StructDecls, Suffix,
    Suffixes, TypeSpec, TypeSpecs, UnionDecl, UnionDecls, Unit, Using, Usings,
};
