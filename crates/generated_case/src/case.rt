//! The files and the script of a case.

ghost use Rattle.std.specs.Prelude.{◌≡◌, ◌<◌, ◌≤◌, ◌++◌, IfOk, OnOk, string_bytes};
ghost use Rattle.std.specs.List.{flat_map};
ghost use Rattle.generated_case.specs.Texts as texts;

use std::alloc::{AllocError, Global};

/// The text of the file of the top protocol.
const HOLDER: &str =
    "include protocol PLeaf; [NestedUpTo=inside_sync] sync protocol PGen { manages PLeaf; parent: async PLeaf(); [Compress] async Up(int32_t n); };\n";

/// The text of the file of the protocol of the actors.
const LEAF: &str =
    "include protocol PGen; [NestedUpTo=inside_sync] sync protocol PLeaf { manager PGen; parent: [Nested=inside_sync] sync Ask(int32_t n) returns (int32_t r); async Get(int32_t n) returns (int32_t r); async __delete__(); child: [Nested=inside_sync] sync Back(int32_t n) returns (int32_t r); };\n";

/// The handlers of both sides.
const HANDLERS: &str =
    "parent on PLeaf.Ask\nsend this PLeaf.Back($1)\nreturn ($1)\nend\nparent on PLeaf.Get\nresolve ($1)\nend\nchild on PLeaf.Back\nsend top PGen.Up($1)\nsend top PGen.Up($1)\nreturn ($1)\nend\n";

/// Room for the bytes of the script that do not depend on its rounds and actors.
const FIXED_ROOM: usize = 256;

/// Room for the bytes of the script for one actor.
const ACTOR_ROOM: usize = 64;

/// Room for the bytes of the script for one round.
const ROUND_ROOM: usize = 64;

/// The files and the script of a run that is made from two numbers (docs/gen.md).
#[derive(Debug, Drop)]
pub struct GeneratedCase {
    /// The text of `PGen.ipdl`, the file of the top protocol.
    pub holder: String,
    /// The text of `PLeaf.ipdl`, the file of the protocol of the actors.
    pub leaf: String,
    /// The text of the script.
    pub script: String,
}

/// Appends the line that makes an actor.
fn push_new(script: &mut String, actor: u32) -> Result<(), AllocError>
    ensures { OnOk result (string_bytes script.new ≡ string_bytes script.old ++ texts.new_line actor) }
{
    write!(script, "new a{actor} top PGen.PLeaf()\n")
}

/// Appends the lines that make all actors.
fn push_all_new(script: &mut String, actors: u32) -> Result<(), AllocError>
    requires { actors ≤ 100 }
    ensures { OnOk result (string_bytes script.new ≡ string_bytes script.old ++ flat_map texts.new_line (texts.numbers_to actors)) }
{
    for index in 0..actors {
        push_new(script, index + 1)?;
    }
    Ok(())
}

/// Appends the line that sends a message of the actors' protocol with a value.
fn push_send(script: &mut String, message: &str, actor: u32, value: u32) -> Result<(), AllocError>
    ensures { OnOk result (string_bytes script.new ≡ string_bytes script.old ++ texts.send_line message.now actor value) }
{
    write!(script, "send a{actor} PLeaf.{message}({value})\n")
}

/// Appends the lines of a round.
fn push_round(script: &mut String, rounds: u32, actors: u32, round: u32) -> Result<(), AllocError>
    requires rounds { rounds ≤ 1000 }
    requires actors { 1 ≤ actors }
    requires bound { actors ≤ 100 }
    requires round { 1 ≤ round }
    requires within { round ≤ rounds }
    ensures { OnOk result (string_bytes script.new ≡ string_bytes script.old ++ texts.round_lines rounds actors round) }
{
    let actor = (round - 1) % actors + 1;
    let value = (31 * rounds + 17 * round) % 1000;
    push_send(script, "Ask", actor, value)?;
    push_send(script, "Get", actor, value)
}

/// Appends the lines of all rounds.
fn push_all_rounds(script: &mut String, rounds: u32, actors: u32) -> Result<(), AllocError>
    requires rounds { rounds ≤ 1000 }
    requires actors { 1 ≤ actors }
    requires bound { actors ≤ 100 }
    ensures { OnOk result (string_bytes script.new ≡ string_bytes script.old ++ flat_map (texts.round_lines rounds actors) (texts.numbers_to rounds)) }
{
    for index in 0..rounds {
        push_round(script, rounds, actors, index + 1)?;
    }
    Ok(())
}

/// Appends the line that deletes an actor.
fn push_delete(script: &mut String, actor: u32) -> Result<(), AllocError>
    ensures { OnOk result (string_bytes script.new ≡ string_bytes script.old ++ texts.delete_line actor) }
{
    write!(script, "send a{actor} PLeaf.__delete__()\n")
}

/// Appends the lines that delete all actors.
fn push_all_deletes(script: &mut String, actors: u32) -> Result<(), AllocError>
    requires { actors ≤ 100 }
    ensures { OnOk result (string_bytes script.new ≡ string_bytes script.old ++ flat_map texts.delete_line (texts.numbers_to actors)) }
{
    for index in 0..actors {
        push_delete(script, index + 1)?;
    }
    Ok(())
}

/// Returns the script. Its memory is allocated once.
fn script_of(alloc: Global, rounds: u32, actors: u32) -> Result<String, AllocError>
    requires rounds { rounds ≤ 1000 }
    requires actors { 1 ≤ actors }
    requires bound { actors ≤ 100 }
    ensures { IfOk result (λ script. string_bytes script ≡ texts.script_text rounds actors) }
{
    let room = FIXED_ROOM + ACTOR_ROOM * actors as usize + ROUND_ROOM * rounds as usize;
    let mut script = String::with_capacity(alloc, room)?;
    script.push_str("child main\n")?;
    push_all_new(&mut script, actors)?;
    push_all_rounds(&mut script, rounds, actors)?;
    push_all_deletes(&mut script, actors)?;
    script.push_str("close\nend\n")?;
    script.push_str(HANDLERS)?;
    Ok(script)
}

/// Returns the files and the script of this number of rounds over this number of actors (docs/gen.md).
/// Fails only if memory runs out.
pub fn generate(alloc: Global, rounds: u32, actors: u32) -> Result<GeneratedCase, AllocError>
    requires some_rounds { 1 ≤ rounds }
    requires rounds { rounds ≤ 1000 }
    requires some_actors { 1 ≤ actors }
    requires actors { actors ≤ 100 }
    ensures holder { IfOk result (λ case. string_bytes case.holder ≡ texts.holder_text) }
    ensures leaf { IfOk result (λ case. string_bytes case.leaf ≡ texts.leaf_text) }
    ensures script { IfOk result (λ case. string_bytes case.script ≡ texts.script_text rounds actors) }
{
    let script = script_of(alloc, rounds, actors)?;
    let holder = String::from_str(alloc, HOLDER)?;
    let leaf = String::from_str(alloc, LEAF)?;
    Ok(GeneratedCase {
        holder,
        leaf,
        script,
    })
}
