//! The weight of the world at each moment of worked runs.
ghost use Rattle.ipdl_base.specs.Sound.{IsSound};

use super::given::note as note_row;
use super::load::Load;
use super::runs::lines_of;
use super::weight_rows::{FULL_WEIGHTS, WEIGHTS, WEIGHTS_COUNT};
use history::History;
use history_of_text::{history_of, schema_of};
use ipdl_base::{Schema, What, is_effect};
use std::alloc::{AllocError, Global};
use std::test::Fail;
use worked_runs::{RUNS, Row, row_named, row_of};

/// The history that a worked run prints.
fn history_in(alloc: Global, schema: &Schema, row: Row<'_>) -> Result<History, Fail> {
    let lines = lines_of(row.printed).ok_or("a run without lines")?;
    history_of(alloc, schema, lines)
}

/// The weights at the moments of a history, with a blank before each.
fn weights_of(
    alloc: Global,
    schema: &Schema,
    history: &History,
    full: bool,
) -> Result<String, AllocError>
    requires { IsSound schema.now }
{
    let mut load = Load::new(alloc);
    let mut shown = String::new(alloc);
    for line in history.lines() {
        if !is_effect(&line.what) {
            let weight = if full {
                load.full_weight()
            } else {
                load.weight()
            };
            write!(shown, " {weight}")?;
        }
        load.note(schema, line)?;
    }
    let weight = if full {
        load.full_weight()
    } else {
        load.weight()
    };
    write!(shown, " {weight}")?;
    Ok(shown)
}

/// Notes a worked run that has other weights than a row gives.
fn check(alloc: Global, text: &str, full: bool, wrong: &mut String) -> Result<(), Fail> {
    let (name, wanted) = text.split_once(" ").ok_or("a row without weights")?;
    let row = row_named(RUNS, name).ok_or("no such run")?;
    let schema = schema_of(alloc, row.file)?;
    let history = history_in(alloc, &schema, row)?;
    let found = weights_of(alloc, &schema, &history, full)?;
    let found = found.as_str().strip_prefix(" ").ok_or("no weight")?;
    Ok(note_row(name, found, wanted, wrong)?)
}

/// Returns the rows with other weights, and the number of rows.
fn checked(alloc: Global, table: &str, full: bool) -> Result<String, Fail> {
    let mut shown = String::new(alloc);
    let mut count = 0u32;
    for text in table.split("\n") {
        check(alloc, text, full, &mut shown)?;
        count = count.wrapping_add(1);
    }
    write!(shown, "{count}")?;
    Ok(shown)
}

#[test]
fn weights(rt: HostRuntime) -> Result<(), Fail> {
    let alloc = rt.alloc();
    assert_eq!(rt; checked(alloc, WEIGHTS, false)?.as_str(), WEIGHTS_COUNT);
    assert_eq!(rt; checked(alloc, FULL_WEIGHTS, true)?.as_str(), "1");
    Ok(())
}

/// Whether a line is that of an act.
fn is_act(what: &What) -> bool {
    matches!(
        what,
        What::Send(..)
            | What::Call(..)
            | What::RefusedSend(..)
            | What::RefusedClose(_)
            | What::RefusedResolve(_)
            | What::RefusedReject(_)
            | What::Resolve(..)
            | What::Reject(_)
            | What::Keep(..)
            | What::Let(..)
            | What::Close
            | What::Die
    )
}

/// Whether an event changes the weight and the full weight as it may: by itself it makes both less, and an act adds at most 8
/// to the one and 6 to the other.
fn may_change(by_act: bool, before: (u32, u32), after: (u32, u32)) -> bool {
    if by_act {
        after.0 <= before.0.wrapping_add(8) && after.1 <= before.1.wrapping_add(6)
    } else {
        after.0 < before.0 && after.1 < before.1
    }
}

/// Whether the events of a history that happen by themselves are at most six for each act.
fn are_few_by_themselves(history: &History) -> bool {
    let mut acts = 0u32;
    let mut by_themselves = 0u32;
    for line in history.lines() {
        if is_act(&line.what) {
            acts = acts.wrapping_add(1);
        } else if !is_effect(&line.what) {
            by_themselves = by_themselves.wrapping_add(1);
        }
    }
    by_themselves <= acts.wrapping_mul(6)
}

/// Returns the number of events of a history that change the weights as they may not, and after a blank the
/// weight that is left.
fn misweighed(alloc: Global, schema: &Schema, history: &History) -> Result<String, AllocError>
    requires { IsSound schema.now }
{
    let mut load = Load::new(alloc);
    let mut before = (0u32, 0u32);
    let mut by_act = true;
    let mut wrong = 0u32;
    for line in history.lines() {
        if !is_effect(&line.what) {
            let now = (load.weight(), load.full_weight());
            if !may_change(by_act, before, now) {
                wrong = wrong.wrapping_add(1);
            }
            before = now;
            by_act = is_act(&line.what);
        }
        load.note(schema, line)?;
    }
    let last = (load.weight(), load.full_weight());
    if !may_change(by_act, before, last) {
        wrong = wrong.wrapping_add(1);
    }
    let mut shown = String::new(alloc);
    write!(shown, "{wrong} {}", last.0)?;
    Ok(shown)
}

/// Notes a worked run in which an event changes the weights as it may not, or that is finished with a weight.
fn check_run(alloc: Global, text: &str, wrong: &mut String) -> Result<(), Fail> {
    let row = row_of(text).ok_or("a row of another form")?;
    let schema = schema_of(alloc, row.file)?;
    let history = history_in(alloc, &schema, row)?;
    if !are_few_by_themselves(&history) {
        writeln!(wrong, "{}: more than six for an act", row.name)?;
    }
    let found = misweighed(alloc, &schema, &history)?;
    let wanted = if row.name == "limit-spent" {
        "0 12"
    } else {
        "0 0"
    };
    Ok(note_row(row.name, found.as_str(), wanted, wrong)?)
}

/// Returns the runs in which a weight changes as it may not, and the number of runs.
fn checked_runs(alloc: Global) -> Result<String, Fail> {
    let mut shown = String::new(alloc);
    let mut count = 0u32;
    for text in RUNS.split("====\n") {
        check_run(alloc, text, &mut shown)?;
        count = count.wrapping_add(1);
    }
    write!(shown, "{count}")?;
    Ok(shown)
}

#[test]
fn weights_fall(rt: HostRuntime) -> Result<(), Fail> {
    assert_eq!(rt; checked_runs(rt.alloc())?.as_str(), "22");
    Ok(())
}
