//! All types that a program writes.

ghost use Rattle.std.specs.Prelude.{◌≡◌, ◌≤◌, length, map, IfOk, OnOk};
ghost use Rattle.std.specs.List.{flat_map};
ghost use Rattle.written_parts.specs.Appends.{Appends};
ghost use Rattle.written_parts.specs.Types.{told, types_within, types_of_params, types_of_components, types_of_message, types_of_unit, written_types};

use ipdl_syntax::{Base, Entry, MessageDecl, Param, TypeSpec, Unit};
use std::alloc::{AllocError, Global};

/// A type that a program writes.
#[derive(Clone, Copy)]
pub struct WrittenType<'p> {
    /// The number of its file.
    pub file: u32,
    /// The type as it is written.
    pub spec: &'p TypeSpec,
}

/// Adds a type and the types inside it.
fn add_type<'p>(
    file: u32,
    spec: &'p TypeSpec,
    types: &mut Vec<WrittenType<'p>>,
) -> Result<(), AllocError>
    ensures { OnOk result (Appends told (types_within file spec.now) types.old.items types.new.items) }
{
    types.push(WrittenType { file, spec })?;
    match &spec.base {
        Base::Named(_, _) => Ok(()),
        Base::Unique(inner) => add_type(file, inner, types),
    }
}

/// Adds the types of parameters, returns or fields.
fn add_params<'p>(
    file: u32,
    params: &'p [Param],
    types: &mut Vec<WrittenType<'p>>,
) -> Result<(), AllocError>
    ensures { OnOk result (Appends told (types_of_params file params.now) types.old.items types.new.items) }
{
    for param in params {
        add_type(file, &param.spec, types)?;
    }
    Ok(())
}

/// Adds the components of a union.
fn add_components<'p>(
    file: u32,
    components: &'p [TypeSpec],
    types: &mut Vec<WrittenType<'p>>,
) -> Result<(), AllocError>
    ensures { OnOk result (Appends told (types_of_components file components.now) types.old.items types.new.items) }
{
    for component in components {
        add_type(file, component, types)?;
    }
    Ok(())
}

/// Adds the types of a message.
fn add_message<'p>(
    file: u32,
    message: &'p MessageDecl,
    types: &mut Vec<WrittenType<'p>>,
) -> Result<(), AllocError>
    ensures { OnOk result (Appends told (types_of_message file message.now) types.old.items types.new.items) }
{
    add_params(file, message.params.as_slice(), types)?;
    if let Some(returns) = &message.returns {
        add_params(file, returns.as_slice(), types)?;
    }
    Ok(())
}

/// Adds the types of these messages.
fn add_messages<'p>(
    file: u32,
    messages: &'p [MessageDecl],
    types: &mut Vec<WrittenType<'p>>,
) -> Result<(), AllocError>
    ensures { OnOk result (Appends told (flat_map (types_of_message file) messages.now) types.old.items types.new.items) }
{
    for message in messages {
        add_message(file, message, types)?;
    }
    Ok(())
}

/// Adds the types of a file.
fn add_unit<'p>(
    file: u32,
    unit: &'p Unit,
    types: &mut Vec<WrittenType<'p>>,
) -> Result<(), AllocError>
    ensures { OnOk result (Appends told (types_of_unit file unit.now) types.old.items types.new.items) }
{
    for struct_decl in unit.structs.as_slice() {
        add_params(file, struct_decl.fields.as_slice(), types)?;
    }
    for union_decl in unit.unions.as_slice() {
        add_components(file, union_decl.components.as_slice(), types)?;
    }
    if let Some(protocol) = &unit.protocol {
        add_messages(file, protocol.messages.as_slice(), types)?;
    }
    Ok(())
}

/// Returns all types that a program writes, in order. Takes time in proportion to the program.
/// Fails only if memory runs out.
pub fn written_types(alloc: Global, program: &[Entry]) -> Result<Vec<WrittenType<'_>>, AllocError>
    requires { length program.now ≤ 4096 }
    ensures { IfOk result (λ types. map told types.items ≡ written_types program.now) }
{
    let mut types = Vec::new(alloc);
    for (file, entry) in program.iter().enumerate() {
        add_unit(file as u32, &entry.unit, &mut types)?;
    }
    Ok(types)
}
