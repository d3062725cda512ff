//! The protocol and the scripts of the tests.

ghost use Rattle.std.specs.Prelude.{IfOk};
ghost use Rattle.ipdl_base.specs.Sound.{IsSound};
ghost use Rattle.handler_script.specs.Valid.{IsValid};

use handler_script::{Script, read_script};
use ipdl_base::Schema;
use std::alloc::Global;
use std::test::Fail;

/// The file of a protocol whose sides call each other.
pub const PROTOCOL: &str = "PW.ipdl";

/// Each side calls the other once, at the same time.
pub const RACE: &str = "parent main
send top PW.CallC()
end
child main
send top PW.CallP()
end
parent on PW.CallP
return (10)
end
child on PW.CallC
return (20)
end
";

/// Returns the script of a text. Its top is the first protocol.
pub fn script_of(alloc: Global, schema: &Schema, text: &str) -> Result<Script, Fail>
    requires sound { IsSound schema.now }
    ensures { IfOk result (IsValid schema.now) }
{
    if schema.protocols.len() == 0 || text.len() > 1_048_576 {
        return Err("no top, or a text that is too large".into());
    }
    Ok(
        read_script(alloc, text.as_bytes(), schema, 0)
            .ok()
            .ok_or("a script that breaks a rule")?,
    )
}

/// Returns the text of a script in which each main calls the other side this many times.
pub fn calls(alloc: Global, count: u32) -> Result<String, Fail> {
    let mut text = String::new(alloc);
    writeln!(text, "parent main")?;
    for _ in 0..count {
        writeln!(text, "send top PW.CallC()")?;
    }
    writeln!(text, "end\nchild main")?;
    for _ in 0..count {
        writeln!(text, "send top PW.CallP()")?;
    }
    writeln!(
        text,
        "end\nparent on PW.CallP\nreturn (10)\nend\nchild on PW.CallC\nreturn (20)\nend"
    )?;
    Ok(text)
}
