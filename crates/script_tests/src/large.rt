//! Texts as deep and as large as they can be.

ghost use Rattle.std.specs.Prelude.{IfOk};
ghost use Rattle.ipdl_base.specs.Sound.{IsSound};

use super::given::{broken, note, read, schema_of_top, script, the_schema};
use super::pieces::{Pieces, joined};
use handler_script::{Point, ScriptFault};
use ipdl_base::{Findings, Rule, Schema, Side};
use std::alloc::Global;
use std::test::Fail;

/// Values as deep as a line allows: those of a union and an array fit.
const DEEP: &[(&str, &str, &str, u32, &str)] = &[
    ("[", "", "]", 8000, "0:2:1 K5 "),
    ("{", "", "}", 8000, "0:2:1 K5 "),
    ("some ", "1", "", 3200, "0:2:1 K5 "),
    ("@0", " true", "", 8000, "0:2:1 K5 "),
    ("@2[", "@2[]", "]", 4080, ""),
    ("@2[", "@0 true", "]", 4080, ""),
    ("@2[", "@0 1", "]", 4080, "0:2:1 K5 "),
    ("@2[", "1", "]", 4080, "0:2:1 K5 "),
    ("@2[@0 false,", "@1 \"\"", "]", 1200, ""),
    ("[", "", "", 16000, "0:2:1 K1 "),
    ("[", "", "}", 8000, "0:2:1 K1 "),
];

/// Lines with this number of brackets.
const BRACKETS: &[(u32, &str)] = &[(16_384, "0:1:1 K1 "), (16_385, "0:1:1 K9 ")];

/// Returns what a text of repeated pieces breaks.
fn broken_by(alloc: Global, schema: &Schema, pieces: Pieces, count: u32) -> Result<String, Fail>
    requires { IsSound schema.now }
{
    let text = joined(alloc, pieces, count)?;
    broken(alloc, schema, "PT", text.as_slice())
}

/// Returns which of these break something else.
fn wrong_depths(alloc: Global) -> Result<String, Fail> {
    let schema = the_schema(alloc)?;
    let mut wrong = String::new(alloc);
    for (open, value, close, count, wanted) in DEEP {
        let pieces = [
            "parent main\nsend top PT.TellEither(",
            open,
            value,
            close,
            ")\nend\n",
        ];
        let found = broken_by(alloc, &schema, pieces, *count)?;
        note(open, found.as_str(), wanted, &mut wrong)?;
    }
    for (count, wanted) in BRACKETS {
        let found = broken_by(alloc, &schema, ["", "[", "", "", ""], *count)?;
        note("brackets", found.as_str(), wanted, &mut wrong)?;
    }
    Ok(wrong)
}

#[test]
fn depths(rt: HostRuntime) -> Result<(), Fail> {
    assert_eq!(rt; wrong_depths(rt.alloc())?.as_str(), "");
    Ok(())
}

/// Returns the number of findings, if all are of this rule, in lines `apart` lines from each other,
/// beginning with line `first`; 0 if not.
fn count_of(findings: &Findings, rule: Rule, first: u32, apart: u32) -> usize {
    let mut line = first;
    for finding in findings.as_slice() {
        let place = finding.place;
        if finding.rule != rule || place.line != line || place.column != 1 || place.file != 0 {
            return 0;
        }
        line = line.wrapping_add(apart);
    }
    findings.len()
}

/// A text with the greatest possible number of lines: its pieces, and how often the second is repeated.
/// Then what is found: the rule, the line of the first finding, and the distance of the others.
struct Large {
    pieces: Pieces,
    count: u32,
    rule: Rule,
    first: u32,
    apart: u32,
}

/// Texts, with the number of their bytes and of their findings.
const LARGE: &[(Large, &str)] = &[
    // The main of a side again and again: each but the first is a finding.
    (
        Large {
            pieces: ["", "parent main\nend\n", "", "", ""],
            count: 65_536,
            rule: Rule::BLOCK_STRUCTURE,
            first: 3,
            apart: 2,
        },
        "1048576 65535",
    ),
    // Lines of one byte that are not statements.
    (
        Large {
            pieces: ["", "x\n", "", "", ""],
            count: 524_288,
            rule: Rule::NOT_A_STATEMENT,
            first: 1,
            apart: 1,
        },
        "1048576 524288",
    ),
    // Statements `return`: each but the last has another one after it.
    (
        Large {
            pieces: ["child on PT.Call\n", "return (1)\n", "end\n", "", ""],
            count: 95_000,
            rule: Rule::NOT_ALLOWED_HERE,
            first: 2,
            apart: 1,
        },
        "1045021 94999",
    ),
    // Answers: each but the first has another one before it.
    (
        Large {
            pieces: ["parent on PT.Get\n", "keep k\n", "end\n", "", ""],
            count: 149_000,
            rule: Rule::NOT_ALLOWED_HERE,
            first: 3,
            apart: 1,
        },
        "1043021 148999",
    ),
];

/// Returns how many findings a text has, by `count_of`.
fn found_in(alloc: Global, schema: &Schema, text: &[u8], large: &Large) -> Result<usize, Fail>
    requires { IsSound schema.now }
{
    match read(alloc, schema, "PT", text)? {
        Err(ScriptFault::Broken(findings)) => Ok(count_of(
            &findings,
            large.rule,
            large.first,
            large.apart,
        )),
        _ => Err("no findings".into()),
    }
}

/// Returns how many bytes a text has, and how many findings.
fn counted(alloc: Global, schema: &Schema, large: &Large) -> Result<String, Fail>
    requires { IsSound schema.now }
{
    let text = joined(alloc, large.pieces, large.count)?;
    let found = found_in(alloc, schema, text.as_slice(), large)?;
    Ok(format!(in alloc; "{} {found}", text.len())?)
}

/// Returns which of these have other findings.
fn wrong_findings(alloc: Global) -> Result<String, Fail> {
    let schema = the_schema(alloc)?;
    let mut wrong = String::new(alloc);
    for (large, wanted) in LARGE {
        note(
            wanted,
            counted(alloc, &schema, large)?.as_str(),
            wanted,
            &mut wrong,
        )?;
    }
    Ok(wrong)
}

#[test]
fn findings(rt: HostRuntime) -> Result<(), Fail> {
    assert_eq!(rt; wrong_findings(rt.alloc())?.as_str(), "");
    Ok(())
}

/// Appends, for one block with the greatest possible number of actions: its bytes, and whether there is
/// an action at two places.
fn push_actions(alloc: Global, schema: &Schema, shown: &mut String) -> Result<(), Fail>
    requires { IsSound schema.now }
{
    let pieces = ["parent main\n", "send top PT.Tell(1)\n", "end\n", "", ""];
    let text = joined(alloc, pieces, 52_428)?;
    let script = script(alloc, schema, text.as_slice())?;
    let last = script.action(Side::Parent, Point::Main(52_427)).is_some();
    let next = script.action(Side::Parent, Point::Main(52_428)).is_some();
    Ok(write!(shown, "{} {last} {next}\n", text.len())?)
}

/// Appends, for the greatest possible number of blocks for one message: the bytes, and the number of
/// blocks.
fn push_blocks(alloc: Global, schema: &Schema, shown: &mut String) -> Result<(), Fail>
    requires { IsSound schema.now }
{
    let pieces = ["# so many blocks\n", "child on PT.Any\nend\n", "", "", ""];
    let text = joined(alloc, pieces, 52_427)?;
    let script = script(alloc, schema, text.as_slice())?;
    Ok(write!(shown, "{} {}\n", text.len(), script.blocks.len())?)
}

/// Returns the results for these, and what a text of line feeds breaks, which is nothing.
fn scripts_text(alloc: Global) -> Result<String, Fail> {
    let schema = the_schema(alloc)?;
    let mut shown = broken_by(alloc, &schema, ["", "\n", "", "", ""], 1_048_576)?;
    push_actions(alloc, &schema, &mut shown)?;
    push_blocks(alloc, &schema, &mut shown)?;
    Ok(shown)
}

#[test]
fn scripts(rt: HostRuntime) -> Result<(), Fail> {
    let shown = scripts_text(rt.alloc())?;
    assert_eq!(rt; shown.as_str(), "1048576 true false\n1048557 52427\n");
    Ok(())
}

/// Returns a schema of one protocol with this many messages.
fn schema_of_many(alloc: Global, count: u32) -> Result<Schema, Fail>
    ensures { IfOk result IsSound }
{
    let mut text = String::from_str(alloc, "@ PT.ipdl\nprotocol PT {\nparent:\n")?;
    for number in 0..count {
        write!(&mut text, "  async M{number}();\n")?;
    }
    text.push_str("};\n")?;
    schema_of_top(alloc, text.as_str(), "PT")
}

/// Returns, for the greatest possible number of sends of the last of many messages: their bytes, and
/// whether there is an action at two places.
fn sends_of_many(alloc: Global) -> Result<String, Fail> {
    let schema = schema_of_many(alloc, 8_192)?;
    let pieces = ["child main\n", "send top PT.M8191()\n", "end\n", "", ""];
    let text = joined(alloc, pieces, 52_428)?;
    let script = script(alloc, &schema, text.as_slice())?;
    let last = script.action(Side::Child, Point::Main(52_427)).is_some();
    let next = script.action(Side::Child, Point::Main(52_428)).is_some();
    Ok(format!(in alloc; "{} {last} {next}", text.len())?)
}

#[test]
fn many_messages(rt: HostRuntime) -> Result<(), Fail> {
    assert_eq!(rt; sends_of_many(rt.alloc())?.as_str(), "1048575 true false");
    Ok(())
}
