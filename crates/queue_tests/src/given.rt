//! Scripts of relays, and what the words of a row mean.

ghost use Rattle.std.specs.Prelude.{IfOk};
ghost use Rattle.ipdl_base.specs.Sound.{IsSound};
ghost use Rattle.handler_script.specs.Valid.{IsValid};

use handler_script::{Script, read_script};
use ipdl_base::{Schema, Side, short_name};
use std::alloc::Global;
use std::test::Fail;
use world_core::Stop;

/// Scripts. Each has its name and the file of its protocol, and then its text. `====` separates two
/// scripts.
const SCRIPTS: &str = "tells PW.ipdl
parent main
send top PW.Tell(5)
send top PW.Tell(6)
end
====
race PW.ipdl
parent main
send top PW.CallC()
end
child main
send top PW.CallP()
end
parent on PW.CallP
return (10)
end
child on PW.CallC
return (20)
end
====
calls PW.ipdl
parent main
send top PW.Tell(5)
send top PW.CallC()
send top PW.Tell(6)
send top PW.CallC()
end
child main
send top PW.CallP()
send top PW.CallP()
end
parent on PW.CallP
return (10)
end
parent on PW.CallP
return (11)
end
child on PW.CallC
return (20)
end
child on PW.CallC
return (21)
end
====
values PHub.ipdl
parent main
send top PHub.Call(7)
end
child main
send top PHub.Wait(@1 5)
end
parent on PHub.PTab
return (true)
end
parent on PHub.Wait
return ($1)
end
child on PHub.Call
new tab top PHub.PTab(null)
return (tab)
end
====
nested PW.ipdl
parent main
send top PW.CallC()
end
parent on PW.CallP
return (10)
end
child on PW.CallC
send top PW.CallP()
return (20)
end
====
nested-twice PW.ipdl
child main
send top PW.CallP()
end
parent on PW.CallP
send top PW.CallC()
return (1)
end
child on PW.CallC
send top PW.CallP()
return (2)
end
parent on PW.CallP
return (3)
end
====
parent-closes PW.ipdl
parent main
send top PW.CallC()
close
end
child on PW.CallC
return (20)
end
====
child-closes PW.ipdl
child main
send top PW.CallP()
close
end
parent on PW.CallP
return (10)
end
====
handler-closes PW.ipdl
parent main
send top PW.CallC()
end
child on PW.CallC
close
return (20)
end
====
both-close PW.ipdl
parent main
send top PW.Tell(5)
send top PW.Tell(6)
close
end
child main
send top PW.Poke()
close
end
====
calls-back PW.ipdl
parent on PW.CallP
send top PW.CallC()
return (10)
end
child on PW.CallC
send top PW.CallP()
return (20)
end
====
tells-back PW.ipdl
parent on PW.Poke
send top PW.Tell(5)
end
child on PW.Tell
send top PW.Poke()
end
";

/// A script as a text, with the file of its protocol.
#[derive(Clone, Copy)]
pub struct Source<'a> {
    /// The file of its protocol.
    pub file: &'a str,
    /// The text of the script.
    pub text: &'a str,
}

/// Returns the script of the table with this name, if there is one.
pub fn source_named(name: &str) -> Option<Source<'static>> {
    for row in SCRIPTS.split("====\n") {
        let (head, text) = row.split_once("\n")?;
        let (word, file) = head.split_once(" ")?;
        if word == name {
            return Some(Source { file, text });
        }
    }
    None
}

/// Returns the number of the protocol with this short name.
fn number_of(schema: &Schema, name: &str) -> Result<u32, Fail> {
    let mut number = 0u32;
    for protocol in schema.protocols.as_slice() {
        if short_name(protocol.name.as_slice()) == name.as_bytes() {
            return Ok(number);
        }
        number = number.wrapping_add(1);
    }
    Err("no such protocol".into())
}

/// Returns the script of a text. Its top is the protocol of a file.
pub fn script_of(alloc: Global, schema: &Schema, source: Source<'_>) -> Result<Script, Fail>
    requires sound { IsSound schema.now }
    ensures { IfOk result (IsValid schema.now) }
{
    let (name, _) = source
        .file
        .split_once(".")
        .ok_or("a file without its ending")?;
    let top = number_of(schema, name)?;
    if top as usize >= schema.protocols.len() || source.text.len() > 1_048_576 {
        return Err("no top, or a text that is too large".into());
    }
    Ok(
        read_script(alloc, source.text.as_bytes(), schema, top)
            .ok()
            .ok_or("a script that breaks a rule")?,
    )
}

/// Returns the side that a word names.
fn side_of(word: &str) -> Result<Side, Fail> {
    match word {
        "parent" => Ok(Side::Parent),
        "child" => Ok(Side::Child),
        _ => Err("no side".into()),
    }
}

/// Returns the death of an end that a text spells; `-` means no death.
pub fn stop_of(text: &str) -> Result<Option<Stop>, Fail> {
    if text == "-" {
        return Ok(None);
    }
    let (side, after) = text.split_once(":").ok_or("a death without its count")?;
    Ok(Some(Stop {
        side: side_of(side)?,
        after: after.parse::<u32>()?,
    }))
}

/// Returns the text of a script in which each main sends this many messages to the other side: the
/// parent a number, the child a poke.
pub fn tells(alloc: Global, count: u32) -> Result<String, Fail> {
    let mut text = String::new(alloc);
    writeln!(text, "parent main")?;
    for number in 0..count {
        writeln!(text, "send top PW.Tell({number})")?;
    }
    writeln!(text, "end\nchild main")?;
    for _ in 0..count {
        writeln!(text, "send top PW.Poke()")?;
    }
    writeln!(text, "end")?;
    Ok(text)
}
