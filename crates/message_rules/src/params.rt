//! The rule on the names of parameters and returns.

ghost use Rattle.std.specs.Prelude.{◌≡◌, ◌++◌, OnOk};
ghost use Rattle.findings.specs.Adds.{Adds};
ghost use Rattle.findings.specs.Repeats.{IsRepeatedAt};
ghost use Rattle.message_rules.specs.Broken.{returns_of};
ghost use Rattle.message_rules.specs.Gathered.{plain_names, param_names};

use findings::{NamePlace, add_repeated};
use ipdl_base::{Finding, Rule};
use ipdl_syntax::{MessageDecl, Param};
use std::alloc::{AllocError, Global};

/// Appends the names of these parameters.
fn add_names<'m>(params: &'m [Param], names: &mut Vec<NamePlace<'m>>) -> Result<(), AllocError>
    ensures { OnOk result (plain_names names.new.items ≡ plain_names names.old.items ++ param_names params.now) }
{
    for param in params {
        names.push((param.name.as_slice(), param.place))?;
    }
    Ok(())
}

/// Adds a finding at each parameter or return that has the name of an earlier one of the message.
/// Overwrites `names`, which is used as a buffer.
pub fn add_repeated_of<'m>(
    alloc: Global,
    message: &'m MessageDecl,
    names: &mut Vec<NamePlace<'m>>,
    found: &mut Vec<Finding>,
) -> Result<(), AllocError>
    ensures { OnOk result (Adds Rule.REPEATED_PARAMETER
        (IsRepeatedAt (param_names (message.now.params ++ returns_of message.now.returns))) found.old.items found.new.items) }
{
    names.clear();
    add_names(message.params.as_slice(), names)?;
    if let Some(returns) = &message.returns {
        add_names(returns.as_slice(), names)?;
    }
    add_repeated(alloc, Rule::REPEATED_PARAMETER, names.as_slice(), found)
}
