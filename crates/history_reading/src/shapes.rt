//! The types of the parts of a value whose own type is known.
ghost use Rattle.std.specs.Prelude.{◌≡◌};
ghost use Rattle.std.specs.Option.{option_copied};
ghost use Rattle.history_reading.specs.Nulled as nulled;

use ipdl_base::{ParamRow, Schema, Shape};

/// Returns the fields of a struct, or no fields.
pub fn fields_of<'a>(schema: &'a Schema, shape: Option<&Shape>) -> &'a [ParamRow]
    ensures { result.now ≡ nulled.fields_of schema.now (option_copied shape.entry) }
{
    match shape {
        Some(shape) => match value_types::fields_of(schema, shape) {
            Some(fields) => fields,
            None => &[],
        },
        None => &[],
    }
}

/// Returns the component of a union with this index.
pub fn component_of<'a>(schema: &'a Schema, shape: Option<&Shape>, index: u32) -> Option<&'a Shape>
    ensures { option_copied result ≡ nulled.component_of schema.now (option_copied shape.entry) index }
{
    value_types::component_of(schema, shape?, index)
}

/// Returns the type of an array's elements.
pub fn element_of(shape: Option<&Shape>) -> Option<&Shape>
    ensures { option_copied result ≡ nulled.element_of (option_copied shape.entry) }
{
    value_types::element_of(shape?)
}

/// Returns the type of the value inside a maybe or a `UniquePtr`.
pub fn held_by(shape: Option<&Shape>) -> Option<&Shape>
    ensures { option_copied result ≡ nulled.held_by (option_copied shape.entry) }
{
    value_types::held_by(shape?)
}

/// Returns the type of the first of some fields, and the others.
pub fn split_fields(fields: &[ParamRow]) -> (Option<&Shape>, &[ParamRow])
    ensures first { option_copied result.0 ≡ nulled.first_shape fields.now }
    ensures others { result.1.now ≡ nulled.other_fields fields.now }
{
    match fields.split_first() {
        Some((field, others)) => (Some(&field.shape), others),
        None => (None, &[]),
    }
}
