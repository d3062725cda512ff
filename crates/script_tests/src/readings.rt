//! How each line of a text is read.

use super::given::note;
use super::pieces::{Pieces, joined};
use super::shows::push_statement;
use script_reader::{LineReading, MAX_LINE_LEN, read_lines};
use std::alloc::{AllocError, Global};
use std::test::Fail;

/// Returns the kind of a reading: `.` is silent, `s` a statement; `1` and `9` name the rules that it
/// breaks.
fn kind(reading: &LineReading) -> char {
    match reading {
        LineReading::Silent => '.',
        LineReading::Statement(_) => 's',
        LineReading::NoStatement => '1',
        LineReading::TooLong => '9',
    }
}

/// Returns the kinds of the lines of a text.
fn kinds(alloc: Global, text: &[u8]) -> Result<String, AllocError> {
    let readings = read_lines(alloc, text)?;
    let mut out = String::new(alloc);
    for reading in readings.as_slice() {
        out.push(kind(reading))?;
    }
    Ok(out)
}

/// Lines, each with its expected kind.
const LINES: &[(&str, &str)] = &[
    ("", "."),
    ("  \t\r", "."),
    ("# parent main", "."),
    (" \t# x \"", "."),
    ("parent main", "s"),
    ("child\tmain\r", "s"),
    ("  parent   main ", "s"),
    ("parent main end", "1"),
    ("parentmain", "1"),
    ("Parent main", "1"),
    ("parent", "1"),
    ("parent on P.M", "s"),
    ("child on P . M", "s"),
    ("child on P.M()", "1"),
    ("child on P", "1"),
    ("child on end.on", "s"),
    ("end", "s"),
    ("end end", "1"),
    ("end.", "1"),
    ("send top P.M()", "s"),
    ("send top P.M(1,2, 3)", "s"),
    ("send top P.M(1,)", "1"),
    ("send top P.M(,1)", "1"),
    ("send top P.M(1 2)", "1"),
    ("send top P.M(1)(2)", "1"),
    ("send top P.M", "1"),
    ("send P.M()", "1"),
    ("send send send.send()", "s"),
    ("send $1 P.M()", "s"),
    ("send $01 P.M()", "s"),
    ("send $0 P.M()", "s"),
    ("send $ 1 P.M()", "1"),
    ("send $99999999999999999999 P.M()", "s"),
    ("send this P.M(this, made, top, null, x)", "s"),
    ("send null P.M()", "1"),
    ("send top top.made(true)", "s"),
    ("new n top P.M()", "s"),
    ("new top top P.M()", "1"),
    ("new new new new.new()", "s"),
    ("new n P.M()", "1"),
    ("let x y", "s"),
    ("let x $2", "s"),
    ("let made y", "1"),
    ("let x null", "1"),
    ("let x none", "1"),
    ("let none x", "1"),
    ("let x", "1"),
    ("resolve ()", "s"),
    ("resolve(1)", "s"),
    ("resolve", "1"),
    ("resolve k P.M (5)", "s"),
    ("resolve k P.M(5)", "s"),
    ("resolve k (5)", "1"),
    ("resolve some P.M(5)", "1"),
    ("reject", "s"),
    ("reject k P.M", "s"),
    ("reject k", "1"),
    ("reject ()", "1"),
    ("keep k", "s"),
    ("keep keep", "s"),
    ("keep this", "1"),
    ("keep", "1"),
    ("close", "s"),
    ("close now", "1"),
    ("die", "s"),
    ("return (1)", "s"),
    ("return()", "s"),
    ("return", "1"),
    ("resolve (-1)", "s"),
    ("resolve (- 1)", "1"),
    ("resolve (-)", "1"),
    ("resolve (007, -0)", "s"),
    ("resolve (1.2)", "1"),
    ("resolve (@0 1)", "s"),
    ("resolve (@001[1])", "s"),
    ("resolve (@ 0 1)", "1"),
    ("resolve (@0)", "1"),
    ("resolve (@0@1 true)", "s"),
    ("resolve (@0-3)", "s"),
    ("resolve ([], {}, [1,2], {1,[2]})", "s"),
    ("resolve ([1}", "1"),
    ("resolve ([)", "1"),
    ("resolve (none, some none, some some 1)", "s"),
    ("resolve (some)", "1"),
    ("resolve (\"\", \"a b\", \"\\\"\\\\\\n\\t\\x41\\x7f\")", "s"),
    ("resolve (\"\\x80\")", "1"),
    ("resolve (\"\\xC\")", "1"),
    ("resolve (\"\\q\")", "1"),
    ("resolve (\"a)", "1"),
    ("resolve (h\"\", h\"00fFAb\")", "s"),
    ("resolve (h\"0\")", "1"),
    ("resolve (h\"0g\")", "1"),
    ("resolve (h \"00\")", "1"),
    ("resolve (some\"x\")", "s"),
    ("resolve (\u{c})", "1"),
    ("\u{c}", "1"),
];

/// Texts of several lines, with the expected kinds of these.
const TEXTS: &[(&[u8], &str)] = &[
    (b"parent main\nend\n", "ss."),
    (b"\n\nx\r\n# y", "..1."),
    (b"resolve (\"\xff\")\nresolve (\"\xc3\xa4\x01\")", "1s"),
];

/// Returns which of these lines and texts have other kinds.
fn wrong_kinds(alloc: Global) -> Result<String, AllocError> {
    let mut wrong = String::new(alloc);
    for (line, wanted) in LINES {
        let found = kinds(alloc, line.as_bytes())?;
        note(line, found.as_str(), wanted, &mut wrong)?;
    }
    for (text, wanted) in TEXTS {
        let found = kinds(alloc, text)?;
        note(wanted, found.as_str(), wanted, &mut wrong)?;
    }
    Ok(wrong)
}

#[test]
fn lines(rt: HostRuntime) -> Result<(), Fail> {
    assert_eq!(rt; wrong_kinds(rt.alloc())?.as_str(), "");
    Ok(())
}

/// Returns the statements of a text, each followed by a line feed.
fn said(alloc: Global, text: &str) -> Result<String, AllocError> {
    let readings = read_lines(alloc, text.as_bytes())?;
    let mut out = String::new(alloc);
    for reading in readings.as_slice() {
        if let LineReading::Statement(statement) = reading {
            push_statement(statement, &mut out)?;
        }
        out.push('\n')?;
    }
    Ok(out)
}

/// Lines, each a statement.
const STATEMENTS: &str = "child main
let x $4294967296
return (-00099999999999999999999999999999999999999999999)
resolve (\"\\\"\\\\\\n\\t\\x41\")
send made P.M(@07[h\"fF0A\"])";

/// The statements of these lines.
const SAID: &str = "child main
let x $4294967295
return -18446744073709551616,
resolve text \"\\\n\tA,
send made P.M @7 [bytes ff0a,],
";

#[test]
fn statements(rt: HostRuntime) -> Result<(), Fail> {
    assert_eq!(rt; said(rt.alloc(), STATEMENTS)?.as_str(), SAID);
    Ok(())
}

/// Lines as deep and as long as they can be, in their pieces, with their kinds.
const DEEP: &[(Pieces, u32, &str)] = &[
    (["resolve(", "[", "", "", ""], 16_376, "1"),
    (["resolve(", "[", "", "", ""], 16_377, "9"),
    (["", "[", "", "", ""], 16_384, "1"),
    (["resolve(", "[", "1", "]", ")"], 8_000, "s"),
    (["resolve(", "{", "1", "}", ")"], 8_187, "s"),
    (["resolve(", "@0", " 1", "", ")"], 8_186, "s"),
    (["resolve(", "some ", "1", "", ")"], 3_274, "s"),
    (["resolve(", "1,", "1", "", ")"], 8_186, "s"),
    (["resolve(", "0", "1", "", ")"], 16_000, "s"),
];

/// Returns which of these lines have other kinds.
fn wrong_depths(alloc: Global) -> Result<String, AllocError> {
    let mut wrong = String::new(alloc);
    for (pieces, count, wanted) in DEEP {
        let line = joined(alloc, *pieces, *count)?;
        let found = kinds(alloc, line.as_slice())?;
        note(pieces[1], found.as_str(), wanted, &mut wrong)?;
    }
    Ok(wrong)
}

/// Returns how many bytes a repeated piece has, and how many lines.
fn sizes(alloc: Global, piece: &'static str, count: u32) -> Result<(usize, usize), AllocError> {
    let text = joined(alloc, ["", piece, "", "", ""], count)?;
    Ok((text.len(), read_lines(alloc, text.as_slice())?.len()))
}

/// The first of the lines has the greatest possible number of bytes. The texts have the greatest
/// possible size.
#[test]
fn depths_and_sizes(rt: HostRuntime) -> Result<(), Fail> {
    let alloc = rt.alloc();
    assert_eq!(rt; wrong_depths(alloc)?.as_str(), "");
    assert_eq!(rt; MAX_LINE_LEN, 16_384);
    assert_eq!(rt; sizes(alloc, "\n", 1_048_576)?, (1_048_576, 1_048_577));
    assert_eq!(rt;
        sizes(alloc, "send top P.M(1)\n", 65_536)?,
        (1_048_576, 65_537)
    );
    Ok(())
}
