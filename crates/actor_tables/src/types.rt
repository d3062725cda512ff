//! The rows of structs and unions.

ghost use Rattle.std.specs.Prelude.{IfOk, IsSome};
ghost use Rattle.std.specs.List.{AllZip};
ghost use Rattle.std.specs.Option.{ForSome, option_copied};
ghost use Rattle.program_schema.specs.Clean.{IsClean};
ghost use Rattle.program_schema.specs.Numbers.{place_of};
ghost use Rattle.program_schema.specs.SchemaOf.{IsParamRow, AreParamRows, AreReturnRows, IsTypeRow};
ghost use Rattle.program_schema.specs.Shapes.{IsShapeOf};
ghost use Rattle.actor_tables.specs.Numbered.{decl_of, numbering_of};
ghost use Rattle.actor_tables.specs.Parts.{IsStructRow, IsUnionRow};
ghost use Rattle.actor_tables.specs.SchemaSource.{IsSource, FindsSole, ParamsFindSole, TypesFindSole};

use crate::numbers::TypeId;
use crate::shapes::shape_of;
use crate::source::SchemaSource;
use ipdl_base::{Items, ParamRow, ParamRows, Shape, TypeRow};
use ipdl_syntax::{Param, Params, StructDecl, TypeSpec, UnionDecl};
use name_table::{struct_of, union_of};
use std::alloc::{AllocError, Global};

/// Returns the row of a parameter, a return or a field.
fn param_row(
    alloc: Global,
    source: &SchemaSource<'_, '_>,
    file: u32,
    param: &Param,
) -> Result<ParamRow, AllocError>
    requires source { IsSource source.now }
    requires sole { FindsSole source.now.program.now file param.now.spec.base }
    ensures { IfOk result (IsParamRow source.now.program.now (numbering_of source.now.numbers) file param.now) }
{
    Ok(ParamRow {
        name: param.name.copy(alloc)?,
        shape: shape_of(alloc, source, file, &param.spec)?,
    })
}

/// Returns the rows of parameters, returns or fields.
pub fn param_rows(
    alloc: Global,
    source: &SchemaSource<'_, '_>,
    file: u32,
    params: &[Param],
) -> Result<Vec<ParamRow>, AllocError>
    requires source { IsSource source.now }
    requires sole { ParamsFindSole source.now.program.now file params.now }
    ensures { IfOk result (λ rows. AreParamRows source.now.program.now (numbering_of source.now.numbers) file params.now rows.items) }
{
    let mut rows = Vec::with_capacity(alloc, params.len())?;
    for param in params {
        rows.push(param_row(alloc, source, file, param)?)?;
    }
    Ok(rows)
}

/// Returns the rows of returns, or `None` for a message without returns.
pub fn return_rows(
    alloc: Global,
    source: &SchemaSource<'_, '_>,
    file: u32,
    returns: Option<&Params>,
) -> Result<Option<ParamRows>, AllocError>
    requires source { IsSource source.now }
    requires sole { ForSome (option_copied returns) (ParamsFindSole source.now.program.now file) }
    ensures { IfOk result (λ rows. AreReturnRows source.now.program.now (numbering_of source.now.numbers) file (option_copied returns.entry) rows) }
{
    match returns {
        None => Ok(None),
        Some(params) => {
            let rows = param_rows(alloc, source, file, params.as_slice())?;
            Ok(Some(Items::from_vec(rows)))
        }
    }
}

/// Returns the shapes of the components of a union.
fn component_shapes(
    alloc: Global,
    source: &SchemaSource<'_, '_>,
    file: u32,
    components: &[TypeSpec],
) -> Result<Vec<Shape>, AllocError>
    requires source { IsSource source.now }
    requires sole { TypesFindSole source.now.program.now file components.now }
    ensures { IfOk result (λ shapes. AllZip (IsShapeOf source.now.program.now (numbering_of source.now.numbers) file) components.now shapes.items) }
{
    let mut shapes = Vec::with_capacity(alloc, components.len())?;
    for component in components {
        shapes.push(shape_of(alloc, source, file, component)?)?;
    }
    Ok(shapes)
}

/// Returns the row of a struct.
fn struct_row(
    alloc: Global,
    source: &SchemaSource<'_, '_>,
    file: u32,
    item: &StructDecl,
) -> Result<TypeRow, AllocError>
    requires source { IsSource source.now }
    requires sole { ParamsFindSole source.now.program.now file item.now.fields }
    ensures { IfOk result (IsStructRow source.now.program.now (numbering_of source.now.numbers) file item.now) }
{
    let fields = param_rows(alloc, source, file, item.fields.as_slice())?;
    Ok(TypeRow::Struct(item.full.copy(alloc)?, Items::from_vec(fields)))
}

/// Returns the row of a union.
fn union_row(
    alloc: Global,
    source: &SchemaSource<'_, '_>,
    file: u32,
    item: &UnionDecl,
) -> Result<TypeRow, AllocError>
    requires source { IsSource source.now }
    requires sole { TypesFindSole source.now.program.now file item.now.components }
    ensures { IfOk result (IsUnionRow source.now.program.now (numbering_of source.now.numbers) file item.now) }
{
    let components = component_shapes(alloc, source, file, item.components.as_slice())?;
    Ok(TypeRow::Union(item.full.copy(alloc)?, Items::from_vec(components)))
}

/// Returns the row of a struct or a union.
fn type_row(alloc: Global, source: &SchemaSource<'_, '_>, id: TypeId) -> Result<TypeRow, AllocError>
    requires source { IsSource source.now }
    requires clean { IsClean source.now.program.now }
    requires there { IsSome (place_of source.now.program.now (decl_of id)) }
    ensures { IfOk result (IsTypeRow source.now.program.now (numbering_of source.now.numbers) (decl_of id)) }
{
    if id.is_union {
        match union_of(source.program, id.file, id.index) {
            Some(item) => union_row(alloc, source, id.file, item),
            None => unreachable!(),
        }
    } else {
        match struct_of(source.program, id.file, id.index) {
            Some(item) => struct_row(alloc, source, id.file, item),
            None => unreachable!(),
        }
    }
}

/// Returns the rows of the structs and unions of a program.
pub fn type_rows(alloc: Global, source: &SchemaSource<'_, '_>) -> Result<Vec<TypeRow>, AllocError>
    requires source { IsSource source.now }
    requires clean { IsClean source.now.program.now }
    ensures { IfOk result (λ rows. AllZip
        (λ id. IsTypeRow source.now.program.now (numbering_of source.now.numbers) (decl_of id))
        source.now.numbers.types.items rows.items) }
{
    let mut rows = Vec::with_capacity(alloc, source.numbers.types.len())?;
    for id in source.numbers.types.as_slice() {
        rows.push(type_row(alloc, source, *id)?)?;
    }
    Ok(rows)
}
