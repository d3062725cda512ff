//! The declarations that names find.

use ipdl_base::Builtin;

/// A declaration that a name can find.
#[derive(Clone, Copy, Debug, PartialEq, Eq)]
pub enum DeclId {
    /// A builtin type.
    Builtin(Builtin),
    /// A `using`, by its file and its index among the usings of the file.
    Using(u32, usize),
    /// A struct, by its file and its index among the structs of the file.
    Struct(u32, usize),
    /// A union, by its file and its index among the unions of the file.
    Union(u32, usize),
    /// The protocol of this file.
    Protocol(u32),
    /// `Endpoint` of the protocol of this file, or `ManagedEndpoint` if the flag is set.
    Endpoint(u32, bool),
}

/// The result of looking a name up: no declaration, one, or several.
#[derive(Clone, Copy, Debug, PartialEq, Eq)]
pub enum Found {
    /// No declaration.
    None,
    /// This declaration alone.
    One(DeclId),
    /// These two different declarations, and maybe more.
    Many(DeclId, DeclId),
}
