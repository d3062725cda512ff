//! Which laws hold of a history, as text.
ghost use Rattle.ipdl_base.specs.Sound.{IsSound};

use history::History;
use ipdl_base::Schema;
use law_checks::{Law, holds};
use std::alloc::{AllocError, Global};

/// All laws, in their order.
const LAWS: &[Law] = &[
    Law::Prefix,
    Law::Living,
    Law::Waits,
    Law::Settled,
    Law::Fallen,
];

/// Which laws hold of a history, each `y` or `n`.
pub fn laws(alloc: Global, schema: &Schema, history: &History) -> Result<String, AllocError>
    requires { IsSound schema.now }
{
    let mut shown = String::new(alloc);
    for law in LAWS {
        let yes = holds(alloc, *law, schema, history)?;
        shown.push(if yes { 'y' } else { 'n' })?;
    }
    Ok(shown)
}

/// Notes the result of a row, if it differs from the expected one.
pub fn note(row: &str, found: &str, wanted: &str, wrong: &mut String) -> Result<(), AllocError> {
    if found == wanted {
        Ok(())
    } else {
        writeln!(wrong, "{row}: {found}")
    }
}
