//! What the tests ask of a history.
ghost use Rattle.ipdl_base.specs.Sound.{IsSound};

use history::History;
use ipdl_base::Schema;
use law_checks::{Law, holds};
use order_checks::{gives_answers, gives_effects, keeps_order};
use std::alloc::{AllocError, Global};

/// All laws, in their order.
const LAWS: &[Law] = &[
    Law::Prefix,
    Law::Living,
    Law::Waits,
    Law::Settled,
    Law::Fallen,
];

/// `y` or `n`.
fn shown(yes: bool) -> char {
    if yes { 'y' } else { 'n' }
}

/// Which laws hold of a history, each `y` or `n`, and after a blank whether it keeps the order, has the effects and gives
/// the answers that are owed.
pub fn verdict(alloc: Global, schema: &Schema, history: &History) -> Result<String, AllocError>
    requires { IsSound schema.now }
{
    let mut verdict = String::new(alloc);
    for law in LAWS {
        verdict.push(shown(holds(alloc, *law, schema, history)?))?;
    }
    verdict.push(' ')?;
    verdict.push(shown(keeps_order(alloc, schema, history)?))?;
    verdict.push(shown(gives_effects(alloc, schema, history)?))?;
    verdict.push(shown(gives_answers(alloc, schema, history)?))?;
    Ok(verdict)
}

/// Notes the result of a row, if it differs from the expected one.
pub fn note(row: &str, found: &str, wanted: &str, wrong: &mut String) -> Result<(), AllocError> {
    if found == wanted {
        Ok(())
    } else {
        writeln!(wrong, "{row}: {found}")
    }
}
