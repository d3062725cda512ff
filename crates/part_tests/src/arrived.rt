//! Tests of arrived items: compression and deferral.
use super::checks::{check, cut};
use ipdl_base::{Body, Compress, Level, Message, Reason, Side, Values};
use pending_queue::{DeferralContext, Item, Pending, PushEffect};
use std::alloc::Global;
use std::process::Abort;
use std::test::Fail;

/// The arrived items of nine sends, of which some compress: the number of the one that each replaces.
const NINE_SENDS_COMPRESS: &str = "is_empty: true
push async 0 -1/0 last: 0 added
push async 0 -2/0 last: -1 replaced -1
push async 4 -3/0 plain: 0 added
push async 0 -4/0 last: 0 added
push async 2 -5/0 all: 0 added
push async 4 -6/0 plain: 0 added
push async 2 -7/0 all: -5 replaced -5
push async 6 -8/0 last: 0 added
push async 6 -9/0 last: -8 replaced -8
len: 6
take nothing: -2
take nothing: -3
take nothing: -4
take nothing: -6
take nothing: -7
take nothing: -9
take nothing: 0";

/// Room for two items, two plain ones, and one where those are cleared.
const TWO_PLAIN_ITEMS: &str = "reserve 2: reserved
push async 4 1/0 plain: 0 added
push async 4 2/0 plain: 0 added
clear: cleared
push async 4 3/0 all: 0 added
take nothing: 3
take nothing: 0";

/// What a parent takes first that awaits a reply of level 1 in the transaction 7: first the request
/// of level 2, then the one of its transaction, then the item of the other side's end.
const A_PARENT_DEFERS: &str = "push async 4 -1/0 plain: 0 added
push fault 7 1/0 plain: 0 added
push sync 4 -2/7 plain: 0 added
push call 4 -3/-3 plain: 0 added
push poke 0 -4/0 plain: 0 added
push call 4 -5/7 plain: 0 added
push goodbye 0 9/0 plain: 0 added
first parent: -4
take parent: -4
first parent: -5
take parent: -5
first parent: 9
take parent: 9
first parent: 0
take parent: 0
take child: -3
take child: 0
take nothing: -1
take nothing: 1
take nothing: -2
take nothing: 0";

fn body_of(kind: &str) -> Body {
    match kind {
        "fault" => Body::Fault(Reason::HandlerRejected),
        "goodbye" => Body::Goodbye,
        _ => Body::Request(Values::Nothing),
    }
}

/// A call is a sync request of level `inside_sync`, and a poke an async one of level `inside_cpow`.
fn level_of(kind: &str) -> Level {
    match kind {
        "call" => Level::InsideSync,
        "poke" => Level::InsideCpow,
        _ => Level::Not,
    }
}

/// The item that a text spells: its kind, the number of its message, its own and its transaction.
fn item_of(text: &str) -> Result<Item, Fail> {
    let (kind, rest) = cut(text, " ");
    let (number, rest) = cut(rest, " ");
    let (seq, transaction) = cut(rest, "/");
    let message = Message {
        route: 2147483647,
        number: number.parse::<u32>()?,
        seq: seq.parse::<i32>()?,
        transaction: transaction.parse::<i32>()?,
        made: 0,
        body: body_of(kind),
    };
    Ok(Item::Message {
        message,
        sync: kind == "sync" || kind == "call",
        level: level_of(kind),
    })
}

fn compress_of(word: &str) -> Compress {
    match word {
        "last" => Compress::Last,
        "all" => Compress::All,
        _ => Compress::Plain,
    }
}

/// What an end awaits: nothing, or in the transaction 7 a reply of level `inside_sync`.
fn deferral_context_of(word: &str) -> DeferralContext {
    let side = if word == "child" {
        Side::Child
    } else {
        Side::Parent
    };
    if word == "nothing" {
        return DeferralContext {
            side,
            level: None,
            transaction: 0,
        };
    }
    DeferralContext {
        side,
        level: Some(Level::InsideSync),
        transaction: 7,
    }
}

/// The number of an item, or 0 if there is no item or it has no number.
fn seq_of(item: Option<&Item>) -> i32 {
    match item {
        Some(Item::Message { message, .. }) => message.seq,
        Some(Item::Broken) | None => 0,
    }
}

fn pushed_text(alloc: Global, old: i32, pushed: &PushEffect) -> Result<String, Fail> {
    match pushed {
        PushEffect::Added => Ok(format!(in alloc; "{old} added")?),
        PushEffect::Replaced(item) => {
            let seq = seq_of(Some(item));
            Ok(format!(in alloc; "{old} replaced {seq}")?)
        }
    }
}

/// Pushes an item: the number of the item that it would replace, and of the one that it replaces.
fn push(alloc: Global, pending: &mut Pending, argument: &str) -> Result<String, Fail> {
    let (item, compress) = argument.rsplit_once(" ").unwrap_or((argument, ""));
    let compress = compress_of(compress);
    let item = item_of(item)?;
    let old = seq_of(pending.replaced(&item, compress));
    let pushed = pending.push(item, compress)?;
    pushed_text(alloc, old, &pushed)
}

/// The number of what is taken first, or 0 where nothing is or it has none.
fn take(pending: &mut Pending, holding: &DeferralContext) -> i32 {
    seq_of(pending.take_first(holding).as_ref())
}

/// A call whose result is a number, by default the number of items.
fn number_answer(pending: &mut Pending, word: &str, argument: &str) -> i32 {
    match word {
        "first" => seq_of(pending.first(&deferral_context_of(argument))),
        "take" => take(pending, &deferral_context_of(argument)),
        _ => i32::try_from(pending.len()).unwrap_or(-1),
    }
}

/// Makes a call and writes its result.
fn answer(alloc: Global, pending: &mut Pending, call: &str) -> Result<String, Fail> {
    let (word, argument) = cut(call, " ");
    match word {
        "push" => push(alloc, pending, argument),
        "reserve" => {
            pending.reserve(argument.parse::<usize>()?)?;
            Ok(String::from_str(alloc, "reserved")?)
        }
        "clear" => {
            pending.clear();
            Ok(String::from_str(alloc, "cleared")?)
        }
        "is_empty" => {
            let is_empty = pending.is_empty();
            Ok(format!(in alloc; "{is_empty}")?)
        }
        _ => {
            let number = number_answer(pending, word, argument);
            Ok(format!(in alloc; "{number}")?)
        }
    }
}

/// Makes the calls of the lines `CALL: ANSWER` where nothing has arrived.
fn run(rt: &impl Abort, alloc: Global, lines: &str) -> Result<(), Fail> {
    let mut pending = Pending::new(alloc)?;
    for line in lines.split("\n") {
        let (call, wanted) = cut(line, ": ");
        let found = answer(alloc, &mut pending, call)?;
        check(rt, line, found.as_str(), wanted);
    }
    Ok(())
}

#[test]
fn nine_sends_compress(rt: HostRuntime) -> Result<(), Fail> {
    run(&rt, rt.alloc(), NINE_SENDS_COMPRESS)
}

#[test]
fn two_plain_items(rt: HostRuntime) -> Result<(), Fail> {
    run(&rt, rt.alloc(), TWO_PLAIN_ITEMS)
}

#[test]
fn a_parent_defers(rt: HostRuntime) -> Result<(), Fail> {
    run(&rt, rt.alloc(), A_PARENT_DEFERS)
}
