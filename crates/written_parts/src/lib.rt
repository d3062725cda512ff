//! What a program writes: all its types, and all its lists of attributes, each in order. A rule on
//! types or on attributes is one loop over such a list (docs/types.md).
#![tactic(auto)]

mod attributes;
mod types;

pub use attributes::{AttributeList, Bearer, attribute_lists};
pub use types::{WrittenType, written_types};
