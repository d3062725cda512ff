//! Looks at types and messages for what more is known of them.
ghost use Rattle.std.specs.Prelude.{◌≡◌, ◌<◌, ℕ, IfOk, length, true};
ghost use Rattle.std.specs.List.{Contains};
ghost use Rattle.ipdl_base.specs.Sound.{IsSound};
ghost use Rattle.wait_report.specs.Least as least;

use crate::least::{TOO_MANY, can_send, is_built, row_least};
use ipdl_base::{Kind, MessageRow, ProtocolRow, Schema};
use std::alloc::{AllocError, Global};

/// Looks at a struct or a union, and returns whether its known least value has decreased.
pub fn look_at_type(schema: &Schema, number: usize, types: &mut Vec<usize>, built: &[bool]) -> bool
    requires there { number < length schema.now.types }
    requires size { length types.old.items ≡ length schema.now.types }
    ensures { least.TypeLook schema.now built.now number types.old.items types.new.items result }
{
    let bytes = row_least(&schema.types.as_slice()[number], types.as_slice(), built);
    if bytes < types[number] {
        types[number] = bytes;
        true
    } else {
        false
    }
}

/// Looks at all structs and unions, and returns whether a known least value has decreased.
pub fn look_at_types(schema: &Schema, types: &mut Vec<usize>, built: &[bool]) -> bool
    requires size { length types.old.items ≡ length schema.now.types }
    ensures { least.TypesLook schema.now built.now (length schema.now.types) types.old.items types.new.items result }
{
    let mut changed = false;
    for number in 0..schema.types.len() {
        if look_at_type(schema, number, types, built) {
            changed = true;
        }
    }
    changed
}

/// Looks at a message, and returns whether the protocol that it constructs is now first known to be built.
pub fn look_at_message(
    schema: &Schema,
    row: &MessageRow,
    types: &[usize],
    built: &mut Vec<bool>,
) -> bool
    requires right { least.IsRightMessage schema.now built.old.items row.now }
    ensures { least.MessagesLook schema.now types.now (λ seen. seen ≡ row.now) built.old.items built.new.items result }
{
    let Kind::Constructor(protocol) = row.kind else {
        return false;
    };
    if !is_built(built.as_slice(), protocol) && can_send(row, types, built.as_slice()) {
        built[protocol as usize] = true;
        true
    } else {
        false
    }
}

/// Looks at the messages of a protocol, and returns whether more protocols are known to be built.
fn look_at_messages(
    schema: &Schema,
    rows: &[MessageRow],
    types: &[usize],
    built: &mut Vec<bool>,
) -> bool
    requires right { (row : _) → Contains rows.now row → least.IsRightMessage schema.now built.old.items row }
    ensures { least.MessagesLook schema.now types.now (λ seen. Contains rows.now seen) built.old.items built.new.items result }
{
    let mut changed = false;
    for row in rows {
        if look_at_message(schema, row, types, built) {
            changed = true;
        }
    }
    changed
}

/// Looks at the messages of protocols, and returns whether more protocols are known to be built.
pub fn look_at_protocols(
    schema: &Schema,
    protocols: &[ProtocolRow],
    types: &[usize],
    built: &mut Vec<bool>,
) -> bool
    requires right { (row : _) → least.IsMessageOf protocols.now row → least.IsRightMessage schema.now built.old.items row }
    ensures { least.MessagesLook schema.now types.now (λ seen. least.IsMessageOf protocols.now seen) built.old.items built.new.items result }
{
    let mut changed = false;
    for protocol in protocols {
        if look_at_messages(schema, protocol.messages.as_slice(), types, built) {
            changed = true;
        }
    }
    changed
}

/// Looks at all types and messages once, and returns whether more is known than before.
pub fn look_around(schema: &Schema, types: &mut Vec<usize>, built: &mut Vec<bool>) -> bool
    requires sound { IsSound schema.now }
    requires size { length types.old.items ≡ length schema.now.types }
    requires count { length built.old.items ≡ length schema.now.protocols }
    ensures { least.RoundLook schema.now types.old.items built.old.items types.new.items built.new.items result }
{
    let lesser = look_at_types(schema, types, built.as_slice());
    let more = look_at_protocols(schema, schema.protocols.as_slice(), types.as_slice(), built);
    lesser || more
}
