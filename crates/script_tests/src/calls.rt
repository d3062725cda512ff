//! The calls of a script: its actions, its blocks and its replies.

ghost use Rattle.ipdl_base.specs.Sound.{IsSound};

use super::given::{note, number_of, script, the_schema};
use super::shows::{push_terms, push_who, text};
use handler_script::{Action, Point, Script, Terms, Who};
use ipdl_base::{Schema, Side, short_name};
use std::alloc::{AllocError, Global};
use std::test::Fail;

/// A script that breaks no rule.
const SCRIPT: &str = "# what the parent does
parent main
send top PT.Tell(-5)
new page top PT.PK(007)
let other page
resolve kept PT.Want (null)
reject kept PT.Get
close
end

parent on PT.Get
keep kept
end
child main
send top PT.Floats(h\"3f800000\", h\"BFf0000000000001\")
send top PT.Texts(\"a\\x41\", h\"\", h\"00fF0a1b\", h\"6162636465666768\")
send top PT.Actors(x, null, top)
send top PT.Holds(some false, none, [1, -2, 0], some none)
send top PT.Nested({-1, some true}, @2 [@1 \"\", @0 false, @3 {2, none}], {})
end
child on PT.PK
send made PK.Note($1)
new next this PT.PK(-0)
end
parent on PT.Get
send $2 PK.Note($01)
send top PT.GiveAll([$2, this, y])
resolve k PT.Get ($1)
resolve ($1)
die
end
parent on PT.Look
send this PT.Any($1)
return (false, \"found\")
end
parent on PT.Look
end
child on PT.Ping
reject
end
";

/// Appends the message with this number.
fn push_message(schema: &Schema, number: u32, out: &mut String) -> Result<(), AllocError>
    requires { IsSound schema.now }
{
    let protocol = schema.protocol(number / 65536);
    let protocol = protocol.map_or(b"".as_slice(), |row| short_name(row.name.as_slice()));
    out.push_str(str::from_utf8(protocol).unwrap_or("no text"))?;
    out.push('.')?;
    out.push_str(schema.message(number).map_or("", |row| text(&row.name)))
}

/// Appends a message with values.
fn push_call(
    schema: &Schema,
    number: u32,
    values: &Terms,
    out: &mut String,
) -> Result<(), AllocError>
    requires { IsSound schema.now }
{
    push_message(schema, number, out)?;
    out.push('(')?;
    push_terms(values, out)?;
    out.push(')')
}

/// Appends the receiver of a message, and the message with its values.
fn push_sent(
    schema: &Schema,
    who: &Who,
    number: u32,
    values: &Terms,
    out: &mut String,
) -> Result<(), AllocError>
    requires { IsSound schema.now }
{
    push_who(who, out)?;
    out.push(' ')?;
    push_call(schema, number, values, out)
}

/// Appends an action.
fn push_action(schema: &Schema, action: &Action, out: &mut String) -> Result<(), AllocError>
    requires { IsSound schema.now }
{
    match action {
        Action::Send {
            who,
            number,
            values,
        } => {
            out.push_str("send ")?;
            push_sent(schema, who, *number, values, out)
        }
        Action::New {
            name,
            who,
            number,
            values,
        } => {
            write!(out, "new {} ", text(name))?;
            push_sent(schema, who, *number, values, out)
        }
        Action::Let { name, who } => {
            write!(out, "let {} ", text(name))?;
            push_who(who, out)
        }
        Action::Resolve { values } => {
            out.push_str("resolve ")?;
            push_terms(values, out)
        }
        Action::Reject => out.push_str("reject"),
        Action::Keep { name } => write!(out, "keep {}", text(name)),
        Action::ResolveNamed {
            name,
            number,
            values,
        } => {
            write!(out, "resolve {} ", text(name))?;
            push_call(schema, *number, values, out)
        }
        Action::RejectNamed { name, number } => {
            write!(out, "reject {} ", text(name))?;
            push_message(schema, *number, out)
        }
        Action::Close => out.push_str("close"),
        Action::Die => out.push_str("die"),
    }
}

/// Returns the number of a message of `PT`.
fn number_in_top(schema: &Schema, name: &str) -> Result<u32, Fail> {
    for protocol in schema.protocols.as_slice() {
        if protocol.name.as_slice() == b"PT".as_slice() {
            for message in protocol.messages.as_slice() {
                if message.name.as_slice() == name.as_bytes() {
                    return Ok(message.number);
                }
            }
        }
    }
    Err("no message".into())
}

/// The actions of `SCRIPT`: the side, the message of `PT` that is handled (empty for a main), the
/// indices of the block and of the action, and the action as text.
const ACTIONS: &[(Side, &str, u32, u32, &str)] = &[
    (Side::Parent, "", 0, 0, "send top PT.Tell(-5,)"),
    (Side::Parent, "", 0, 1, "new page top PT.PK(7,)"),
    (Side::Parent, "", 0, 2, "let other page"),
    (Side::Parent, "", 0, 3, "resolve kept PT.Want(actor 0,)"),
    (Side::Parent, "", 0, 4, "reject kept PT.Get"),
    (Side::Parent, "", 0, 5, "close"),
    (Side::Parent, "", 0, 6, ""),
    (Side::Parent, "", 0, 4294967295, ""),
    (Side::Parent, "Get", 0, 0, "keep kept"),
    (Side::Parent, "Get", 0, 1, ""),
    (Side::Parent, "Get", 1, 0, "send $2 PK.Note(param 1,)"),
    (
        Side::Parent,
        "Get",
        1,
        1,
        "send top PT.GiveAll([param 2,who this,who y,],)",
    ),
    (Side::Parent, "Get", 1, 2, "resolve k PT.Get(param 1,)"),
    (Side::Parent, "Get", 1, 3, "resolve param 1,"),
    (Side::Parent, "Get", 1, 4, "die"),
    (Side::Parent, "Get", 1, 5, ""),
    (Side::Parent, "Get", 2, 0, ""),
    (Side::Parent, "Look", 0, 0, "send this PT.Any(param 1,)"),
    (Side::Parent, "Look", 0, 1, ""),
    (Side::Parent, "Look", 1, 0, ""),
    (Side::Parent, "PK", 0, 0, ""),
    (Side::Child, "Get", 0, 0, ""),
    (
        Side::Child,
        "",
        0,
        0,
        "send top PT.Floats(bits 3f800000,bits bff0000000000001,)",
    ),
    (
        Side::Child,
        "",
        0,
        1,
        "send top PT.Texts(text aA,bytes ,bytes 00ff0a1b,bytes 6162636465666768,)",
    ),
    (
        Side::Child,
        "",
        0,
        2,
        "send top PT.Actors(who x,actor 0,who top,)",
    ),
    (
        Side::Child,
        "",
        0,
        3,
        "send top PT.Holds(some false,none,[1,-2,0,],some none,)",
    ),
    (
        Side::Child,
        "",
        0,
        4,
        "send top PT.Nested({-1,some true,},@2 [@1 text ,@0 false,@3 {2,none,},],{},)",
    ),
    (Side::Child, "", 0, 5, ""),
    (Side::Child, "PK", 0, 0, "send made PK.Note(param 1,)"),
    (Side::Child, "PK", 0, 1, "new next this PT.PK(0,)"),
    (Side::Child, "PK", 0, 2, ""),
    (Side::Child, "Ping", 0, 0, "reject"),
    (Side::Child, "Ping", 0, 1, ""),
];

/// Returns the point of an action in a main or in the handler of a message of `PT`.
fn point_of(schema: &Schema, handled: &str, block: u32, index: u32) -> Result<Point, Fail> {
    if handled.is_empty() {
        return Ok(Point::Main(index));
    }
    let number = number_in_top(schema, handled)?;
    Ok(Point::Handler {
        number,
        block,
        index,
    })
}

/// Returns the action at a point as text; empty if there is no action.
fn action_text(
    alloc: Global,
    schema: &Schema,
    script: &Script,
    side: Side,
    point: Point,
) -> Result<String, AllocError>
    requires { IsSound schema.now }
{
    let mut shown = String::new(alloc);
    if let Some(action) = script.action(side, point) {
        push_action(schema, action, &mut shown)?;
    }
    Ok(shown)
}

/// Notes which of these actions differ.
fn note_actions(
    alloc: Global,
    schema: &Schema,
    script: &Script,
    wrong: &mut String,
) -> Result<(), Fail>
    requires { IsSound schema.now }
{
    for (side, handled, block, index, wanted) in ACTIONS {
        let point = point_of(schema, handled, *block, *index)?;
        let found = action_text(alloc, schema, script, *side, point)?;
        note(wanted, found.as_str(), wanted, wrong)?;
    }
    Ok(())
}

/// The number of blocks of `SCRIPT` that a side has for a message of `PT`.
const BLOCKS: &[(Side, &str, u32)] = &[
    (Side::Parent, "Get", 2),
    (Side::Parent, "Look", 2),
    (Side::Parent, "PK", 0),
    (Side::Parent, "Tell", 0),
    (Side::Child, "Get", 0),
    (Side::Child, "PK", 1),
    (Side::Child, "Ping", 1),
];

/// The values that a block of `SCRIPT` returns, as text.
const REPLIES: &[(Side, &str, u32, &str)] = &[
    (Side::Parent, "Look", 0, "false,text found,"),
    (Side::Parent, "Look", 1, "nothing"),
    (Side::Parent, "Look", 2, "nothing"),
    (Side::Parent, "Get", 1, "nothing"),
    (Side::Child, "Look", 0, "nothing"),
];

/// Returns the values that a block returns, as text.
fn reply_text(
    alloc: Global,
    script: &Script,
    side: Side,
    number: u32,
    block: u32,
) -> Result<String, AllocError> {
    let mut shown = String::new(alloc);
    match script.reply(side, number, block) {
        Some(values) => push_terms(values, &mut shown)?,
        None => shown.push_str("nothing")?,
    }
    Ok(shown)
}

/// Notes which of these replies differ.
fn note_replies(
    alloc: Global,
    schema: &Schema,
    script: &Script,
    wrong: &mut String,
) -> Result<(), Fail> {
    for (side, handled, block, wanted) in REPLIES {
        let number = number_in_top(schema, handled)?;
        let found = reply_text(alloc, script, *side, number, *block)?;
        note(handled, found.as_str(), wanted, wrong)?;
    }
    Ok(())
}

/// Notes which of these counts of blocks differ.
fn note_blocks(schema: &Schema, script: &Script, wrong: &mut String) -> Result<(), Fail> {
    if script.blocks.len() > 0xffff_ffff {
        return Err("too many blocks".into());
    }
    for (side, handled, wanted) in BLOCKS {
        let found = script.blocks(*side, number_in_top(schema, handled)?);
        if found != *wanted {
            writeln!(wrong, "{handled}: {found}")?;
        }
    }
    Ok(())
}

/// Returns which actions, blocks and replies of `SCRIPT` differ, and the numbers of its top.
fn wrong_calls(alloc: Global) -> Result<String, Fail> {
    let schema = the_schema(alloc)?;
    let script = script(alloc, &schema, SCRIPT.as_bytes())?;
    let mut wrong = String::new(alloc);
    note_actions(alloc, &schema, &script, &mut wrong)?;
    note_blocks(&schema, &script, &mut wrong)?;
    note_replies(alloc, &schema, &script, &mut wrong)?;
    write!(wrong, "{} {}", script.top(), number_of(&schema, "PT")?)?;
    Ok(wrong)
}

#[test]
fn actions_blocks_and_replies(rt: HostRuntime) -> Result<(), Fail> {
    assert_eq!(rt; wrong_calls(rt.alloc())?.as_str(), "3 3");
    Ok(())
}
