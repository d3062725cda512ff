//! The table of names of a program: the declarations that a file sees, what a name in it finds
//! among these, and the levels, kinds and attributes of declarations (docs/names.md).
#![tactic(auto)]

mod decl;
mod decls;
mod ends;
mod kinds;
mod names;
mod rows;
mod sight;
mod strength;
mod texts;

pub use decl::{DeclId, Found};
pub use decls::{protocol_of, struct_of, union_of};
pub use kinds::{MessageKind, compress_of, is_lazy, kind_of, message_level, protocol_level};
pub use names::Names;
pub use strength::Strength;
