//! All lists of attributes that a program writes.

ghost use Rattle.std.specs.Prelude.{◌≡◌, map, IfOk, OnOk};
ghost use Rattle.written_parts.specs.Appends.{Appends};
ghost use Rattle.written_parts.specs.Attributes.{told, lists_of_params, lists_of_message, lists_of_protocol, lists_of_unit, attribute_lists};

use ipdl_syntax::{Attribute, Entry, MessageDecl, Param, ProtocolDecl, Unit};
use std::alloc::{AllocError, Global};

/// What attributes belong to.
#[derive(Clone, Copy)]
pub enum Bearer {
    /// A `using` statement.
    Using,
    /// A struct.
    Struct,
    /// A union.
    Union,
    /// A protocol.
    Protocol,
    /// A message.
    Message,
    /// A parameter or a return.
    Parameter,
}

/// A list of attributes that a program writes, with its bearer.
#[derive(Clone, Copy)]
pub struct AttributeList<'p> {
    /// What the attributes belong to.
    pub bearer: Bearer,
    /// The attributes in text order.
    pub attributes: &'p [Attribute],
}

/// Adds the lists of attributes of parameters or returns.
fn add_params<'p>(params: &'p [Param], lists: &mut Vec<AttributeList<'p>>) -> Result<(), AllocError>
    ensures { OnOk result (Appends told (lists_of_params params.now) lists.old.items lists.new.items) }
{
    for param in params {
        lists.push(AttributeList {
            bearer: Bearer::Parameter,
            attributes: param.attributes.as_slice(),
        })?;
    }
    Ok(())
}

/// Adds the lists of attributes of a message.
fn add_message<'p>(
    message: &'p MessageDecl,
    lists: &mut Vec<AttributeList<'p>>,
) -> Result<(), AllocError>
    ensures { OnOk result (Appends told (lists_of_message message.now) lists.old.items lists.new.items) }
{
    lists.push(AttributeList {
        bearer: Bearer::Message,
        attributes: message.attributes.as_slice(),
    })?;
    add_params(message.params.as_slice(), lists)?;
    if let Some(returns) = &message.returns {
        add_params(returns.as_slice(), lists)?;
    }
    Ok(())
}

/// Adds the lists of attributes of the protocol of a file.
fn add_protocol<'p>(
    protocol: &'p ProtocolDecl,
    lists: &mut Vec<AttributeList<'p>>,
) -> Result<(), AllocError>
    ensures { OnOk result (Appends told (lists_of_protocol (Some protocol.now)) lists.old.items lists.new.items) }
{
    lists.push(AttributeList {
        bearer: Bearer::Protocol,
        attributes: protocol.attributes.as_slice(),
    })?;
    for message in protocol.messages.as_slice() {
        add_message(message, lists)?;
    }
    Ok(())
}

/// Adds the lists of attributes of a file.
fn add_unit<'p>(unit: &'p Unit, lists: &mut Vec<AttributeList<'p>>) -> Result<(), AllocError>
    ensures { OnOk result (Appends told (lists_of_unit unit.now) lists.old.items lists.new.items) }
{
    for using_decl in unit.usings.as_slice() {
        lists.push(AttributeList {
            bearer: Bearer::Using,
            attributes: using_decl.attributes.as_slice(),
        })?;
    }
    for struct_decl in unit.structs.as_slice() {
        lists.push(AttributeList {
            bearer: Bearer::Struct,
            attributes: struct_decl.attributes.as_slice(),
        })?;
    }
    for union_decl in unit.unions.as_slice() {
        lists.push(AttributeList {
            bearer: Bearer::Union,
            attributes: union_decl.attributes.as_slice(),
        })?;
    }
    if let Some(protocol) = &unit.protocol {
        add_protocol(protocol, lists)?;
    }
    Ok(())
}

/// Returns all lists of attributes that a program writes, in order. Takes time in proportion to the
/// program. Fails only if memory runs out.
pub fn attribute_lists(
    alloc: Global,
    program: &[Entry],
) -> Result<Vec<AttributeList<'_>>, AllocError>
    ensures { IfOk result (λ lists. map told lists.items ≡ attribute_lists program.now) }
{
    let mut lists = Vec::new(alloc);
    for entry in program {
        add_unit(&entry.unit, &mut lists)?;
    }
    Ok(lists)
}
