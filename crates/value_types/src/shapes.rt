//! The parts of types: ranges of numbers, elements, fields and components.
ghost use Rattle.std.specs.Prelude.{◌≡◌, option_map};
ghost use Rattle.value_types.specs.Shapes as shapes;

use ipdl_base::{Builtin, ParamRow, Schema, Shape, TypeRow};

/// Returns the least and the greatest whole number of a builtin, or `None` if its values are not whole
/// numbers.
pub fn range_of(builtin: Builtin) -> Option<(i128, i128)>
    ensures { result ≡ shapes.range_of builtin }
{
    match builtin {
        Builtin::Char | Builtin::Int8 => Some((-0x80, 0x7f)),
        Builtin::Uint8 => Some((0, 0xff)),
        Builtin::Short | Builtin::Int16 => Some((-0x8000, 0x7fff)),
        Builtin::Uint16 => Some((0, 0xffff)),
        Builtin::Int | Builtin::Int32 => Some((-0x8000_0000, 0x7fff_ffff)),
        Builtin::Uint32 | Builtin::NsResult => Some((0, 0xffff_ffff)),
        Builtin::Long | Builtin::Int64 | Builtin::IntPtr => {
            Some((-0x8000_0000_0000_0000, 0x7fff_ffff_ffff_ffff))
        }
        Builtin::Uint64 | Builtin::UintPtr => Some((0, 0xffff_ffff_ffff_ffff)),
        _ => None,
    }
}

/// Returns the builtin of a type, or `None` if the type is not a builtin.
pub fn builtin_of(shape: &Shape) -> Option<Builtin>
    ensures { result ≡ shapes.builtin_of shape.now }
{
    match shape {
        Shape::Builtin(builtin) => Some(*builtin),
        _ => None,
    }
}

/// Returns whether the values of a type are bytes of any kind.
pub fn is_bytes(shape: &Shape) -> bool
    ensures { result ≡ shapes.is_bytes shape.now }
{
    match shape {
        Shape::Builtin(builtin) => matches!(builtin, Builtin::NsCString | Builtin::ByteBuf),
        Shape::Using(_) => true,
        _ => false,
    }
}

/// Returns the type of an array's elements, or `None` if the type is not an array.
pub fn element_of(shape: &Shape) -> Option<&Shape>
    ensures { option_map (λ s. s.now) result ≡ shapes.element_of shape.now }
{
    match shape {
        Shape::Array(element) => Some(element),
        _ => None,
    }
}

/// Returns the type of the value in a maybe or a `UniquePtr`, or `None` for any other type.
pub fn held_by(shape: &Shape) -> Option<&Shape>
    ensures { option_map (λ s. s.now) result ≡ shapes.held_by shape.now }
{
    match shape {
        Shape::Maybe(inner) | Shape::Unique(inner) => Some(inner),
        _ => None,
    }
}

/// Returns the struct or the union of a named type, or `None` if there is none.
fn row_of<'a>(schema: &'a Schema, shape: &Shape) -> Option<&'a TypeRow>
    ensures { option_map (λ row. row.now) result ≡ shapes.row_of schema.now shape.now }
{
    match shape {
        Shape::Named(number) => schema.types.as_slice().get(*number as usize),
        _ => None,
    }
}

/// Returns the fields of a struct, or `None` if the type is not a struct.
pub fn fields_of<'a>(schema: &'a Schema, shape: &Shape) -> Option<&'a [ParamRow]>
    ensures { option_map (λ fields. fields.now) result ≡ shapes.fields_of schema.now shape.now }
{
    match row_of(schema, shape)? {
        TypeRow::Struct(_, fields) => Some(fields.as_slice()),
        TypeRow::Union(_, _) => None,
    }
}

/// Returns the component of a union with this index, or `None` if there is none.
pub fn component_of<'a>(schema: &'a Schema, shape: &Shape, index: u32) -> Option<&'a Shape>
    ensures { option_map (λ s. s.now) result ≡ shapes.component_of schema.now shape.now index }
{
    match row_of(schema, shape)? {
        TypeRow::Struct(_, _) => None,
        TypeRow::Union(_, components) => components.as_slice().get(index as usize),
    }
}
