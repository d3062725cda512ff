//! A table of the messages of a schema, by name.

ghost use Rattle.std.specs.Prelude.{◌≡◌, ℕ, List, IfOk, find, option_map};
ghost use Rattle.std.specs.Str.{bytes_eq};
ghost use Rattle.ipdl_base.specs.declared.schema.Schema.{Schema as SchemaType};
ghost use Rattle.handler_script.specs.Messages.{named};
ghost use Rattle.handler_script.specs.Tables.{IsTableOf, found_in, row_at};

use crate::mentions::message_of;
use indexmap::IndexMap;
use ipdl_base::{MessageRow, Schema, short_name};
use script_reader::{MessageName, Statement};
use std::alloc::{AllocError, Global};

/// The messages of a protocol, by name.
type MessageNames<'s> = IndexMap<&'s [u8], &'s MessageRow>;

/// The messages of a schema, by the short name of the protocol and the name of the message. A look-up
/// takes a time that does not grow with the schema.
#[derive(Drop)]
pub struct MessageTable<'s> {
    protocols: IndexMap<&'s [u8], MessageNames<'s>>,
}

/// Returns the messages by name. If a name occurs twice, the first one is found.
fn by_names<'s>(alloc: Global, messages: &'s [MessageRow]) -> Result<MessageNames<'s>, AllocError>
    ensures { IfOk result (λ names. (name : List ℕ) → row_at name names ≡ find (λ m. bytes_eq m.name name) messages.now) }
{
    let mut names = IndexMap::new(alloc);
    for index in (0..messages.len()).rev() {
        let message = &messages[index];
        names.insert(message.name.as_slice(), message)?;
    }
    Ok(names)
}

impl<'s> MessageTable<'s> {
    /// Returns the table of a schema. Takes time in proportion to the schema. Fails only if memory runs
    /// out.
    pub fn new(alloc: Global, schema: &'s Schema) -> Result<MessageTable<'s>, AllocError>
        ensures { IfOk result (IsTableOf schema.now) }
    {
        let rows = schema.protocols.as_slice();
        let mut protocols = IndexMap::new(alloc);
        for index in (0..rows.len()).rev() {
            let row = &rows[index];
            let messages = by_names(alloc, row.messages.as_slice())?;
            protocols.insert(short_name(row.name.as_slice()), messages)?;
        }
        Ok(MessageTable { protocols })
    }

    /// Returns the message with this name, if the schema has one. If a name occurs twice, the first one
    /// is returned.
    pub fn find(&self, name: &MessageName) -> Option<&'s MessageRow>
        ensures { option_map (λ m. m.now) result ≡ found_in self.now name.now }
    {
        let messages = self.protocols.get(name.protocol.as_slice())?;
        messages.get(name.message.as_slice()).copied()
    }

    /// Returns the message that a statement names, if it exists.
    pub(crate) fn message_of(&self, statement: &Statement) -> Option<&'s MessageRow>
        ensures { (schema : SchemaType) → IsTableOf schema self.now → option_map (λ m. m.now) result ≡ named schema statement.now }
    {
        self.find(message_of(statement)?)
    }
}
