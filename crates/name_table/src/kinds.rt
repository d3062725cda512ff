//! The kind, level, compression and laziness of a message, by its attributes and its name.

ghost use Rattle.std.specs.Prelude.{◌≡◌, Some};
ghost use Rattle.std.specs.List.{list_any};
ghost use Rattle.std.specs.Option.{option_copied};
ghost use Rattle.std.specs.Str.{bytes_eq};
ghost use Rattle.name_table.specs.Kinds.{attribute_named, listed_level, level_by, level_of_message, level_of_protocol, compress_of_message, is_lazy_message, IsKindOf};

use ipdl_base::{Compress, Level};
use ipdl_syntax::{Attribute, MessageDecl, ProtocolDecl};

/// The kind of a message.
#[derive(Clone, Copy, Debug, PartialEq, Eq)]
pub enum MessageKind {
    /// It is only handled.
    Normal,
    /// It also makes an actor of a managed protocol.
    Constructor,
    /// It also makes its actor fall.
    Destructor,
}

/// Returns the level that a value names, or `not`.
fn listed(value: &[u8]) -> Level
    ensures { result ≡ listed_level (Some value.now) }
{
    if value == b"inside_sync".as_slice() {
        Level::InsideSync
    } else if value == b"inside_cpow".as_slice() {
        Level::InsideCpow
    } else {
        Level::Not
    }
}

/// Returns the first attribute of this name, or `None`.
fn named<'a>(attributes: &'a [Attribute], name: &[u8]) -> Option<&'a Attribute>
    ensures { option_copied result ≡ attribute_named name.now attributes.now }
{
    attributes.iter().find(|a| a.name.as_slice() == name)
}

/// Returns the level that the first attribute of this name gives, or `not`.
fn level_of(attributes: &[Attribute], name: &[u8]) -> Level
    ensures { result ≡ level_by name.now attributes.now }
{
    match named(attributes, name) {
        None => Level::Not,
        Some(attribute) => match &attribute.value {
            None => Level::Not,
            Some(value) => listed(value.as_slice()),
        },
    }
}

/// Returns the level of a message, by its `Nested`.
pub fn message_level(message: &MessageDecl) -> Level
    ensures { result ≡ level_of_message message.now }
{
    level_of(message.attributes.as_slice(), b"Nested")
}

/// Returns the highest level that the messages of a protocol may have, by its `NestedUpTo`.
pub fn protocol_level(protocol: &ProtocolDecl) -> Level
    ensures { result ≡ level_of_protocol protocol.now }
{
    level_of(protocol.attributes.as_slice(), b"NestedUpTo")
}

/// Returns how a message replaces earlier ones, by its `Compress`.
pub fn compress_of(message: &MessageDecl) -> Compress
    ensures { result ≡ compress_of_message message.now }
{
    match named(message.attributes.as_slice(), b"Compress") {
        None => Compress::Plain,
        Some(attribute) => match &attribute.value {
            None => Compress::Last,
            Some(value) => {
                if value.as_slice() == b"all".as_slice() {
                    Compress::All
                } else {
                    Compress::Plain
                }
            }
        },
    }
}

/// Returns whether a message may wait in its sender's outbox, by its `LazySend`.
pub fn is_lazy(message: &MessageDecl) -> bool
    ensures { result ≡ is_lazy_message message.now }
{
    match named(message.attributes.as_slice(), b"LazySend") {
        None => false,
        Some(attribute) => attribute.value.is_none(),
    }
}

/// Returns whether a name is among the names of `manages`.
fn is_managed(protocol: &ProtocolDecl, name: &[u8]) -> bool
    ensures { result ≡ list_any (λ n. bytes_eq n.name name.now) protocol.now.manages }
{
    let mut managed = protocol.manages.as_slice().iter();
    managed.any(|n| n.name.as_slice() == name)
}

/// Returns the kind of a message of this protocol. Takes time in proportion to the names of `manages`.
pub fn kind_of(protocol: &ProtocolDecl, message: &MessageDecl) -> MessageKind
    ensures { IsKindOf protocol.now message.now result }
{
    let name = message.name.as_slice();
    if name == b"__delete__".as_slice() {
        MessageKind::Destructor
    } else if is_managed(protocol, name) {
        MessageKind::Constructor
    } else {
        MessageKind::Normal
    }
}
