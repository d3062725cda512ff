//! Builds the schema of a program.

ghost use Rattle.std.specs.Prelude.{◌≡◌, IfOk};
ghost use Rattle.ipdl_base.specs.Sound.{IsSound};
ghost use Rattle.program_schema.specs.Clean.{IsClean};
ghost use Rattle.program_schema.specs.SchemaOf.{IsSchemaOf};

use crate::carried::MarkedTypes;
use crate::messages::protocol_rows;
use crate::numbers::SchemaNumbers;
use crate::source::SchemaSource;
use crate::types::type_rows;
use ipdl_base::{Items, Schema};
use ipdl_syntax::Program;
use name_table::Names;
use program_schema::clean_is_sound;
use std::alloc::{AllocError, Global};

/// Returns the schema of a program that breaks no rule: a row for each protocol, in the order of
/// full names, and for each struct and union, in text order. The schema is sound. Fails only if
/// memory runs out.
pub fn schema(alloc: Global, program: &Program, names: &Names<'_>) -> Result<Schema, AllocError>
    requires clean { IsClean program.now }
    requires of_program { names.now ≡ program.now }
    ensures of_program { IfOk result (IsSchemaOf program.now) }
    ensures sound { IfOk result IsSound }
{
    clean_is_sound();
    let program = program.as_slice();
    let numbers = SchemaNumbers::of(alloc, program)?;
    let source = SchemaSource {
        program,
        names,
        numbers,
    };
    let types = MarkedTypes::of(alloc, type_rows(alloc, &source)?)?;
    let protocols = protocol_rows(alloc, &source, &types)?;
    Ok(Schema {
        protocols: Items::from_vec(protocols),
        types: Items::from_vec(types.rows),
    })
}
