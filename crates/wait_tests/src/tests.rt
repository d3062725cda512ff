//! The tests.
use crate::lines::report;
use crate::rows::{ROWS, Row};
use crate::size_rows;
use std::alloc::Global;
use std::process::Abort;
use std::rt::HostRuntime;
use std::test::Fail;

fn check(rt: &impl Abort, row: &Row, found: &str) {
    assert_eq!(rt; found, row.lines, "{}", row.says);
}

#[test]
fn programs(rt: HostRuntime) -> Result<(), Fail> {
    let alloc = rt.alloc();
    for row in ROWS {
        let found = report(alloc, row.text, row.top)?;
        check(&rt, row, found.as_str());
    }
    Ok(())
}

/// Returns a program of one protocol with these messages after a sync message of the child.
fn program(alloc: Global, messages: &str) -> Result<String, Fail> {
    Ok(format!(in alloc;
        "@ PS.ipdl\n{}{}[NestedUpTo=inside_sync] sync protocol PS {{\nparent: sync Ask();\n{messages}\n}};\n",
        size_rows::TYPES,
        size_rows::MORE_TYPES
    )?)
}

#[test]
fn sizes(rt: HostRuntime) -> Result<(), Fail> {
    let alloc = rt.alloc();
    for row in size_rows::ROWS {
        let text = program(alloc, row.text)?;
        let found = report(alloc, text.as_str(), row.top)?;
        check(&rt, row, found.as_str());
    }
    Ok(())
}

/// Returns a program of a protocol that builds another by a constructor with these parameters.
fn building(alloc: Global, parameters: &str) -> Result<String, Fail> {
    Ok(format!(in alloc;
        "@ PM.ipdl\ninclude protocol PN;\n{}[NestedUpTo=inside_sync] sync protocol PM {{ manages PN; parent: sync Ask(); child: async PN({parameters}); }};
@ PN.ipdl
include protocol PM;
[NestedUpTo=inside_sync] sync protocol PN {{ manager PM; child: [Nested=inside_sync] sync Ping(); async __delete__(); }};
",
        size_rows::TYPES
    )?)
}

#[test]
fn constructors(rt: HostRuntime) -> Result<(), Fail> {
    let alloc = rt.alloc();
    for row in size_rows::CONSTRUCTORS {
        let text = building(alloc, row.text)?;
        let found = report(alloc, text.as_str(), row.top)?;
        check(&rt, row, found.as_str());
    }
    Ok(())
}

/// Returns a message of a chain of `structs` structs, each of which contains the next, declared from the
/// first or from the last on.
fn chain(alloc: Global, structs: u32, from_last: bool) -> Result<String, Fail> {
    let mut text = String::from_str(alloc, "@ PS.ipdl\n")?;
    for at in 0..structs {
        let number = if from_last {
            structs.wrapping_sub(at).wrapping_sub(1)
        } else {
            at
        };
        let next = number.wrapping_add(1);
        if next == structs {
            text.push_str(format!(in alloc; "struct S{number} {{ bool b; }};\n")?.as_str())?;
        } else {
            text.push_str(format!(in alloc; "struct S{number} {{ S{next} s; }};\n")?.as_str())?;
        }
    }
    text.push_str(
        "[NestedUpTo=inside_sync] sync protocol PS {\nparent: sync Ask();\nchild: [Nested=inside_sync] sync C(S0 s);\n};\n",
    )?;
    Ok(text)
}

#[test]
fn chains(rt: HostRuntime) -> Result<(), Fail> {
    let alloc = rt.alloc();
    for (structs, from_last, lines) in [
        (1023u32, false, "child waits PS.Ask takes PS.C\n"),
        (1023, true, "child waits PS.Ask takes PS.C\n"),
        (1024, false, ""),
        (1024, true, ""),
        (8000, false, ""),
    ] {
        let text = chain(alloc, structs, from_last)?;
        let found = report(alloc, text.as_str(), "PS")?;
        assert_eq!(rt; found.as_str(), lines, "{structs} structs");
    }
    Ok(())
}
