//! The words and names that tables have.

ghost use Rattle.std.specs.Prelude.{◌≡◌};
ghost use Rattle.actor_tables.specs.TableText as text;

use ipdl_base::{Compress, Direction, Kind, Level, Schema, Semantics, TypeRow};

/// Returns the word for a semantics.
pub fn semantics_word(semantics: Semantics) -> &'static [u8]
    ensures { result.now ≡ text.semantics_text semantics }
{
    match semantics {
        Semantics::Async => b"async",
        Semantics::Sync => b"sync",
    }
}

/// Returns the word for a level.
pub fn level_word(level: Level) -> &'static [u8]
    ensures { result.now ≡ text.level_text level }
{
    match level {
        Level::Not => b"not",
        Level::InsideSync => b"inside_sync",
        Level::InsideCpow => b"inside_cpow",
    }
}

/// Returns the word for a direction.
pub fn direction_word(direction: Direction) -> &'static [u8]
    ensures { result.now ≡ text.direction_text direction }
{
    match direction {
        Direction::Parent => b"parent",
        Direction::Child => b"child",
        Direction::Both => b"both",
    }
}

/// Returns the word for a compression.
pub fn compress_word(compress: Compress) -> &'static [u8]
    ensures { result.now ≡ text.compress_text compress }
{
    match compress {
        Compress::Plain => b"plain",
        Compress::Last => b"compress",
        Compress::All => b"compressall",
    }
}

/// Returns the word for a kind. It is `lazy` for a normal message that may wait in the outbox.
pub fn kind_word(kind: Kind, lazy: bool) -> &'static [u8]
    ensures { result.now ≡ text.kind_text kind lazy }
{
    match kind {
        Kind::Normal if lazy => b"lazy",
        Kind::Normal => b"normal",
        Kind::Constructor(_) => b"constructor",
        Kind::Delete => b"delete",
    }
}

/// Returns the full name of the protocol with this number, or an empty name if there is no such
/// protocol.
pub fn protocol_name(schema: &Schema, number: u32) -> &[u8]
    ensures { result.now ≡ text.protocol_name schema.now number }
{
    match schema.protocols.as_slice().get(number as usize) {
        Some(protocol) => protocol.name.as_slice(),
        None => &[],
    }
}

/// Returns the full name of the struct or union with this number, or an empty name if there is no
/// such type.
pub fn type_name(schema: &Schema, number: u32) -> &[u8]
    ensures { result.now ≡ text.type_name schema.now number }
{
    match schema.types.as_slice().get(number as usize) {
        Some(TypeRow::Struct(name, _)) => name.as_slice(),
        Some(TypeRow::Union(name, _)) => name.as_slice(),
        None => &[],
    }
}
