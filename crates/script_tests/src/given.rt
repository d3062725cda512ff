//! The program of the tests, and what a text breaks.

ghost use Rattle.std.specs.Prelude.{IfOk};
ghost use Rattle.ipdl_base.specs.Sound.{IsSound};

use handler_script::{Script, ScriptFault, read_script};
use ipdl_base::{Finding, Findings, Schema, short_name};
use memory_files::MemoryFiles;
use schema_of_text::schema_of;
use std::alloc::{AllocError, Global};
use std::test::Fail;

/// The files of the program whose messages the tables of rules use. Each begins with `@ ` and its name,
/// followed by its text. `PT` is the top.
const FILES: &str = "@ PT.ipdl
include protocol PD;
include protocol PK;
include protocol PS;
include protocol PU;
include protocol PX;
using a::Handle from \"a.h\";
using a::Other from \"a.h\";
struct Pair { int16_t a; bool? b; };
struct Bare { };
struct Wrap { Endpoint<PK> e; };
union Either { bool; nsString; Either[]; Pair; };
[NestedUpTo=inside_cpow] sync protocol PT {
  manages PK;
  manages PS;
  manages PU;
parent:
  async Flag(bool b);
  async Small(char c, int8_t i, uint8_t u);
  async Middle(short s, int16_t i, uint16_t u);
  async Large(int i, int32_t j, uint32_t u, nsresult n);
  async Huge(long l, int64_t i, intptr_t p, uint64_t u, uintptr_t v);
  async Floats(float f, double d);
  async Texts(nsString s, nsCString c, ByteBuf b, Handle h);
  async Nested(Pair p, Either e, Bare n);
  async Holds(bool? m, UniquePtr<int8_t> u, int8_t[] xs, bool?? d);
  async Actors(PT t, nullable PK k, PK q);
  async Lists(PK[] ks, nullable PK[] ns, PK? m);
  async None();
  async Many(int32_t a, int b, int16_t c, bool d, nsString e, nsCString f, ByteBuf g, Handle h, Other i, Pair j, PK k, nullable PK l, PS m, int32_t[] n, bool? o, PK[] p, nullable PK[] q);
  async Shared(Shmem s);
  async Shares(Shmem[] s);
  async Wraps(Wrap[] w);
  async Hand() returns (FileDescriptor f);
  async Lent(Shmem s) returns (bool b);
  sync Look(int32_t n) returns (bool found, nsString text);
  sync Plain();
  sync Blank() returns ();
  async Get(int32_t n, PK k) returns (int32_t r);
  async Done() returns ();
  sync PS() returns (bool ok);
  sync PU() returns (Shmem s);
child:
  [Nested=inside_sync] sync Call(int32_t n) returns (int32_t r);
  async Want(int32_t n) returns (nullable PK r);
  async Down(Shmem[] s);
  async Tell(int32_t n);
  async TellInt(int n);
  async TellText(nsString s);
  async TellBytes(nsCString c);
  async TellBuffer(ByteBuf b);
  async TellHandle(Handle h);
  async TellPair(Pair p);
  async TellEither(Either e);
  async TellMaybe(bool? m);
  async Give(PK k);
  async May(nullable PK k);
  async GiveAll(PK[] ks);
  async MayAll(nullable PK[] ks);
both:
  async PK(int32_t n);
  async Any(int32_t n);
  async Ping() returns (bool b);
  async top(bool true);
};
@ PK.ipdl
include protocol PT;
protocol PK {
  manager PT;
both:
  async Note(int32_t n);
parent:
  async __delete__();
};
@ PS.ipdl
include protocol PT;
sync protocol PS {
  manager PT;
parent:
  async Take(PS s);
  async __delete__();
};
@ PU.ipdl
include protocol PT;
sync protocol PU {
  manager PT;
parent:
  async __delete__();
};
@ PD.ipdl
protocol PD {
  manager PD;
  manages PD;
parent:
  async PD();
  async __delete__();
};
@ PX.ipdl
namespace x {
namespace y {
protocol PX {
both:
  async Hi();
};
}
}
";

/// Returns a file with this name and text.
fn file(alloc: Global, name: &str, text: &str) -> Result<(String, Vec<u8>), AllocError> {
    let name = String::from_str(alloc, name)?;
    Ok((name, Vec::from_slice(alloc, text.as_bytes())?))
}

/// Returns the files that a text spells, in memory.
fn files(alloc: Global, texts: &str) -> Result<MemoryFiles, AllocError> {
    let mut files = Vec::new(alloc);
    for piece in texts.split("@ ") {
        if let Some((name, text)) = piece.split_once("\n") {
            files.push(file(alloc, name, text)?)?;
        }
    }
    Ok(MemoryFiles::new(files, Vec::new(alloc)))
}

/// Returns the schema of the file of a top, which is one of these files, and of those that it includes.
pub fn schema_of_top(alloc: Global, texts: &str, top: &str) -> Result<Schema, Fail>
    ensures { IfOk result IsSound }
{
    let word = format!(in alloc; "{top}.ipdl")?;
    schema_of(alloc, files(alloc, texts)?, word.as_str())
}

/// Returns the schema of the program of the tests.
pub fn the_schema(alloc: Global) -> Result<Schema, Fail>
    ensures { IfOk result IsSound }
{
    schema_of_top(alloc, FILES, "PT")
}

/// Returns the number of the protocol with this short name.
pub fn number_of(schema: &Schema, name: &str) -> Result<u32, Fail> {
    let mut number = 0u32;
    for protocol in schema.protocols.as_slice() {
        if short_name(protocol.name.as_slice()) == name.as_bytes() {
            return Ok(number);
        }
        number = number.wrapping_add(1);
    }
    Err("no such protocol".into())
}

/// Returns the result of reading a text as a script whose top has this short name.
pub fn read(
    alloc: Global,
    schema: &Schema,
    top: &str,
    text: &[u8],
) -> Result<Result<Script, ScriptFault>, Fail>
    requires { IsSound schema.now }
{
    let top = number_of(schema, top)?;
    if top as usize >= schema.protocols.len() || text.len() > 1_048_576 {
        return Err("no top, or a text that is too large".into());
    }
    Ok(read_script(alloc, text, schema, top))
}

/// Returns the script of a text that breaks no rule.
pub fn script(alloc: Global, schema: &Schema, text: &[u8]) -> Result<Script, Fail>
    requires { IsSound schema.now }
{
    Ok(read(alloc, schema, "PT", text)?.ok().ok_or("no script")?)
}

/// Appends a finding as `FILE:LINE:COLUMN RULE` and a blank.
fn push_finding(finding: &Finding, out: &mut String) -> Result<(), AllocError> {
    let (place, rule) = (finding.place, finding.rule);
    let (file, line, column) = (place.file, place.line, place.column);
    let (letter, number) = (char::from(rule.letter), rule.number);
    write!(out, "{file}:{line}:{column} {letter}{number} ")
}

/// Returns findings as text, each as `FILE:LINE:COLUMN RULE` and a blank.
fn show(alloc: Global, findings: &Findings) -> Result<String, AllocError> {
    let mut shown = String::new(alloc);
    for finding in findings.as_slice() {
        push_finding(finding, &mut shown)?;
    }
    if shown.is_empty() {
        shown.push_str("a report of nothing")?;
    }
    Ok(shown)
}

/// Returns the findings of a text in the form of `show`; empty if it has a script.
pub fn broken(alloc: Global, schema: &Schema, top: &str, text: &[u8]) -> Result<String, Fail>
    requires { IsSound schema.now }
{
    match read(alloc, schema, top, text)? {
        Ok(_) => Ok(String::new(alloc)),
        Err(ScriptFault::Broken(findings)) => Ok(show(alloc, &findings)?),
        Err(ScriptFault::NoMemory) => Err("no memory".into()),
    }
}

/// Notes what was found for a row if it is not what the row expects.
pub fn note(row: &str, found: &str, wanted: &str, wrong: &mut String) -> Result<(), AllocError> {
    if found == wanted {
        Ok(())
    } else {
        writeln!(wrong, "{row}: {found}")
    }
}
