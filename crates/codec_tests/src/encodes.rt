//! Rows of messages that are encoded.
ghost use Rattle.ipdl_base.specs.Sound.{IsSound};
ghost use Rattle.value_types.specs.Fits.{Fits};

use super::checks::{check, check_count, cut};
use super::schemas::the_schema;
use super::shown::{bytes_of, digits_of};
use ipdl_base::{Message, Schema};
use std::alloc::Global;
use std::process::Abort;
use std::test::Fail;
use value_codec::{DecodeResult, decode, decode_old, encode, frame_size};

/// Rows `OLD: NEW`: an old frame, and the new frame of its message.
const ENCODES: &str =
    "01000000ffffff7f0000010000000000ffffffff0000000001: 4950443204000000ffffff7f0000010000000000ffffffff0000000001000000
03000000ffffff7f0200010000000000ffffffff00000000807fff: 495044320c000000ffffff7f0200010000000000ffffffff00000000800000007f000000ff000000
06000000ffffff7f0400010000000000ffffffff000000000080ff7fffff: 495044320c000000ffffff7f0400010000000000ffffffff0000000000800000ff7f0000ffff0000
10000000ffffff7f0600010000000000ffffffff0000000000000080ffffff7fffffffff00000000: 4950443210000000ffffff7f0600010000000000ffffffff0000000000000080ffffff7fffffffff00000000
28000000ffffff7f0800010000000000ffffffff000000000000000000000080ffffffffffffff7fffffffffffffffffffffffffffffffff0000000000000000: 4950443228000000ffffff7f0800010000000000ffffffff000000000000000000000080ffffffffffffff7fffffffffffffffffffffffffffffffff0000000000000000
0c000000ffffff7f0a00010000000000ffffffff00000000fefefefefefefefefefefefe: 495044320c000000ffffff7f0a00010000000000ffffffff00000000fefefefefefefefefefefefe
1a000000ffffff7f0c00010000000000ffffffff000000000300000061626302000000ff0004000000616263640100000061: 4950443220000000ffffff7f0c00010000000000ffffffff00000000030000006162630002000000ff00000004000000616263640100000061000000
1c000000ffffff7f0e00010000000000ffffffff0000000053feff01010200000002000000010000000200000061620000000000: 495044322c000000ffffff7f0e00010000000000ffffffff0000000053000000feff0000010000000100000002000000020000000100000002000000616200000000000000000000
11000000ffffff7f1000010000000000ffffffff00000000ffffff7f00000000010003000000ffffff: 4950443220000000ffffff7f1000010000000000ffffffff00000000ffffff7f00000000010000000000000003000000ff000000ff000000ff000000
04000000ffffff7f1200010000000000ffffffff0000000006000000: 4950443204000000ffffff7f1200010000000000ffffffff0000000006000000
00000000ffffff7f1e000100030000000100000001000000: 4950443200000000ffffff7f1e000100030000000100000001000000
00000000ffffff7f1800010040000000ffffffff00000000: 4950443200000000ffffff7f1800010040000000ffffffff00000000
00000000ffffff7f1600010020000000ffffffff00000000: 4950443200000000ffffff7f1600010020000000ffffffff00000000
00000000ffffff7f2000010004000000ffffffff00000000: 4950443200000000ffffff7f2000010004000000ffffffff00000000
04000000ffffff7f1f00010009000000010000000100000014000000: 4950443204000000ffffff7f1f00010009000000010000000100000014000000
01000000ffffff7f1b00010018000000010000000000000005: 4950443204000000ffffff7f1b00010018000000010000000000000005000000
00000000000000000000ffff000000000000000000000000: 4950443200000000000000000000ffff000000000000000000000000";

/// The number of rows.
const ENCODES_COUNT: u32 = 17;

/// Returns the size of a message's new frame, and the frame appended to one byte.
pub fn framed(alloc: Global, schema: &Schema, message: &Message) -> Result<String, Fail>
    requires sound { IsSound schema.now }
    requires fits { Fits schema.now message.now }
{
    let mut out = vec![in alloc; 7]?;
    if encode(alloc, schema, message, &mut out).is_err() {
        return Err("no room".into());
    }
    let digits = digits_of(alloc, out.as_slice())?;
    let size = frame_size(schema, message);
    if 2 + 2 * size.min(8192) != digits.len() {
        return Err("another size".into());
    }
    Ok(format!(in alloc; "{size} {digits}")?)
}

/// Returns the size and the new frame of the message that bytes begin with.
fn again(alloc: Global, schema: &Schema, old: bool, digits: &str) -> Result<String, Fail>
    requires { IsSound schema.now }
{
    let bytes = bytes_of(alloc, digits)?;
    let decoded = if old {
        decode_old(alloc, schema, bytes.as_slice())
    } else {
        decode(alloc, schema, bytes.as_slice())
    };
    match &decoded {
        DecodeResult::Frame(message, _) => framed(alloc, schema, message),
        _ => Err("no frame".into()),
    }
}

/// Checks that the message of an old frame, and the message of its new frame, are both written as the new
/// frame.
fn check_row(rt: &impl Abort, alloc: Global, schema: &Schema, row: &str) -> Result<(), Fail>
    requires { IsSound schema.now }
{
    let (first, second) = cut(row, ": ");
    let size = second.len() / 2;
    let wanted = format!(in alloc; "{size} 07{second}")?;
    for (old, digits) in [(true, first), (false, second)] {
        let found = again(alloc, schema, old, digits)?;
        check(rt, digits, found.as_str(), wanted.as_str());
    }
    Ok(())
}

#[test]
fn encodes(rt: HostRuntime) -> Result<(), Fail> {
    check_count(&rt, ENCODES, ENCODES_COUNT);
    let alloc = rt.alloc();
    let schema = the_schema(alloc)?;
    for row in ENCODES.split("\n") {
        check_row(&rt, alloc, &schema, row)?;
    }
    Ok(())
}
