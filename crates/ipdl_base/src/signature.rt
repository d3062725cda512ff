//! The parameters and returns of messages.
ghost use Rattle.std.specs.Prelude.{◌≡◌};
ghost use Rattle.ipdl_base.specs.Sound.{IsSound};
ghost use Rattle.ipdl_base.specs.Signatures as signatures;

use crate::schema::{MessageRow, ParamRow, Schema};

/// Returns the parameters of the message whose request or reply has this number, or an empty slice if there is no such
/// message.
pub fn params_of(schema: &Schema, number: u32) -> &[ParamRow]
    requires { IsSound schema.now }
    ensures { result.now ≡ signatures.params_of schema.now number }
{
    match schema.message(number) {
        Some(message) => message.params.as_slice(),
        None => &[],
    }
}

/// Returns the returns of a message, or an empty slice if it has none.
pub fn returns_of_row(message: &MessageRow) -> &[ParamRow]
    ensures { result.now ≡ signatures.returns_of_row message.now }
{
    match &message.returns {
        Some(returns) => returns.as_slice(),
        None => &[],
    }
}

/// Returns the returns of the message whose request or reply has this number, or an empty slice if it has none or there is
/// no such message.
pub fn returns_of(schema: &Schema, number: u32) -> &[ParamRow]
    requires { IsSound schema.now }
    ensures { result.now ≡ signatures.returns_of schema.now number }
{
    match schema.message(number) {
        Some(message) => returns_of_row(message),
        None => &[],
    }
}
