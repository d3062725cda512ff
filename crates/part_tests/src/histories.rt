//! Tests of histories and of their text.
ghost use Rattle.std.specs.Prelude.{IfOk};
ghost use Rattle.ipdl_base.specs.Sound.{IsSound};

use super::checks::check;
use history::{History, Line, What, history_text};
use ipdl_base::{Items, Schema, SendRefusal, Side};
use std::alloc::{AllocError, Global};
use std::test::Fail;

/// No protocol and no type.
fn nothing(alloc: Global) -> Schema
    ensures { IsSound result }
{
    Schema {
        protocols: Items::from_vec(Vec::new(alloc)),
        types: Items::from_vec(Vec::new(alloc)),
    }
}

fn push(history: &mut History, side: Side, what: What) -> Result<(), AllocError> {
    history.push(Line { side, what })
}

/// Room for two lines, and three lines.
fn write(history: &mut History) -> Result<(), AllocError> {
    history.reserve(2)?;
    push(
        history,
        Side::Parent,
        What::RefusedClose(SendRefusal::InCall),
    )?;
    push(history, Side::Child, What::Close)?;
    push(history, Side::Child, What::Fails(-3))
}

/// The text of a history.
fn text_of(alloc: Global, history: &History) -> Result<String, Fail> {
    let text = history_text(alloc, &nothing(alloc), history)?;
    Ok(String::from_utf8(text)?)
}

/// The number of lines of a history before and after some are written, and its text then.
fn shown(alloc: Global) -> Result<String, Fail> {
    let mut history = History::new(alloc);
    let before = history.lines().len();
    write(&mut history)?;
    let after = history.lines().len();
    let text = text_of(alloc, &history)?;
    Ok(format!(in alloc; "{before} {after}\n{text}")?)
}

#[test]
fn lines(rt: HostRuntime) -> Result<(), Fail> {
    let found = shown(rt.alloc())?;
    check(
        &rt,
        "three lines",
        found.as_str(),
        "0 3\nparent refused InCall close\nchild close\n  fails -3\n",
    );
    Ok(())
}
