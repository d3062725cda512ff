//! The shapes of types.

ghost use Rattle.std.specs.Prelude.{◌≡◌, IfOk};
ghost use Rattle.program_schema.specs.Shapes.{IsShapeOf, IsShapeOfBase, IsShapeOfDecl, IsSuffixed};
ghost use Rattle.actor_tables.specs.Numbered.{numbering_of};
ghost use Rattle.actor_tables.specs.SchemaSource.{IsSource, IsThere, FindsSole};

use crate::numbers::TypeId;
use crate::source::{SchemaSource, using_name};
use ipdl_base::Shape;
use ipdl_syntax::{Base, Suffix, TypeSpec};
use name_table::{DeclId, Found};
use std::alloc::{AllocError, Global};

/// Returns the shape of a declaration. `nullable` is whether the type begins with that word.
fn shape_of_decl(
    alloc: Global,
    source: &SchemaSource<'_, '_>,
    nullable: bool,
    id: DeclId,
) -> Result<Shape, AllocError>
    requires source { IsSource source.now }
    requires there { IsThere source.now.program.now id }
    ensures { IfOk result (IsShapeOfDecl source.now.program.now (numbering_of source.now.numbers) nullable id) }
{
    match id {
        DeclId::Builtin(builtin) => Ok(Shape::Builtin(builtin)),
        DeclId::Using(file, index) => {
            Ok(Shape::Using(using_name(alloc, source.program, file, index)?))
        }
        DeclId::Struct(file, index) => Ok(Shape::Named(source.type_number(TypeId {
            file,
            is_union: false,
            index,
        }))),
        DeclId::Union(file, index) => Ok(Shape::Named(source.type_number(TypeId {
            file,
            is_union: true,
            index,
        }))),
        DeclId::Protocol(file) => Ok(Shape::Actor(source.protocol_number(file), nullable)),
        DeclId::Endpoint(file, managed) => {
            Ok(Shape::Endpoint(source.protocol_number(file), managed))
        }
    }
}

/// Applies suffixes to a shape, from left to right.
fn suffixed(alloc: Global, base: Shape, suffixes: &[Suffix]) -> Result<Shape, AllocError>
    ensures { IfOk result (IsSuffixed (λ shape. shape ≡ base) suffixes.now) }
{
    let mut shape = base;
    for suffix in suffixes {
        shape = match suffix {
            Suffix::Array => Shape::Array(Box::new(alloc, shape)?),
            Suffix::Maybe => Shape::Maybe(Box::new(alloc, shape)?),
        };
    }
    Ok(shape)
}

/// Returns the shape of a base in a file. `nullable` is whether the type begins with that word.
fn shape_of_base(
    alloc: Global,
    source: &SchemaSource<'_, '_>,
    file: u32,
    nullable: bool,
    base: &Base,
) -> Result<Shape, AllocError>
    requires source { IsSource source.now }
    requires sole { FindsSole source.now.program.now file base.now }
    ensures { IfOk result (IsShapeOfBase source.now.program.now (numbering_of source.now.numbers) file nullable base.now) }
{
    match base {
        Base::Named(name, argument) => match source.names.find(file, name, argument.as_ref()) {
            Found::One(id) => shape_of_decl(alloc, source, nullable, id),
            _ => unreachable!(),
        },
        Base::Unique(inner) => {
            let held = shape_of_base(alloc, source, file, inner.nullable, &inner.base)?;
            let held = suffixed(alloc, held, inner.suffixes.as_slice())?;
            Ok(Shape::Unique(Box::new(alloc, held)?))
        }
    }
}

/// Returns the shape of a type in a file.
pub fn shape_of(
    alloc: Global,
    source: &SchemaSource<'_, '_>,
    file: u32,
    spec: &TypeSpec,
) -> Result<Shape, AllocError>
    requires source { IsSource source.now }
    requires sole { FindsSole source.now.program.now file spec.now.base }
    ensures { IfOk result (IsShapeOf source.now.program.now (numbering_of source.now.numbers) file spec.now) }
{
    let base = shape_of_base(alloc, source, file, spec.nullable, &spec.base)?;
    suffixed(alloc, base, spec.suffixes.as_slice())
}
