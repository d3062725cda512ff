//! Tests of the bytes of packets.
ghost use Rattle.ipdl_base.specs.Sound.{IsSound};

use super::checks::{check, frame, push_digits};
use super::parts::{SchemaCase, told_of_schema};
use end_parts::{Packet, PacketReading, frame_of, goodbye_frame, read_packet};
use ipdl_base::{Items, Schema};
use std::alloc::{AllocError, Global};
use std::test::Fail;

/// Rows `BYTES: READING`: a packet's bytes, and the number of the message that they are and its
/// frame, or the first fault. The last line is the frame of a goodbye.
const PACKETS: &str = "4950443204000000ffffff7f020001000000000001000000000000000000000000: bad 32 10
4950443204000000ffffff7f02000100000000000100000000000000: bad 28 10
4950443204000000ffffff7f0200010000000000010000000000000000000000: 65538 4950443204000000ffffff7f0200010000000000010000000000000000000000
495044320400: bad 6 10
goodbye 4950443200000000000000000000ffff000000000000000000000000
";

/// Appends a frame that was made.
fn push_frame(log: &mut String, frame: &Result<Items<u8>, AllocError>) -> Result<(), AllocError> {
    match frame {
        Ok(frame) => push_digits(log, frame.as_slice()),
        Err(_) => Err(AllocError),
    }
}

/// Appends a message by its number and its frame.
fn push_message(
    log: &mut String,
    number: u32,
    frame: &Result<Items<u8>, AllocError>,
) -> Result<(), AllocError> {
    write!(log, "{number} ")?;
    push_frame(log, frame)
}

/// Appends what a packet is, and the frame of its message.
fn push_reading(
    alloc: Global,
    schema: &Schema,
    packet: &Packet,
    log: &mut String,
) -> Result<(), AllocError>
    requires { IsSound schema.now }
{
    match read_packet(alloc, schema, packet) {
        PacketReading::Message(message) => {
            let frame = frame_of(alloc, schema, &message);
            push_message(log, message.number, &frame)
        }
        PacketReading::Mark => log.push_str("mark"),
        PacketReading::Bad(offset, rule) => write!(log, "bad {offset} {rule}"),
        PacketReading::NoMemory => Err(AllocError),
    }
}

/// Appends a row of the bytes of a packet.
fn push_row(
    alloc: Global,
    schema: &Schema,
    digits: &str,
    log: &mut String,
) -> Result<(), AllocError>
    requires { IsSound schema.now }
{
    write!(log, "{digits}: ")?;
    let packet = Packet::Bytes(frame(alloc, digits)?);
    let done = push_reading(alloc, schema, &packet, log);
    drop(packet);
    done?;
    log.push('\n')
}

/// Appends the frame of a goodbye.
fn push_goodbye(alloc: Global, schema: &Schema, log: &mut String) -> Result<(), AllocError>
    requires { IsSound schema.now }
{
    log.push_str("goodbye ")?;
    let goodbye = goodbye_frame(alloc, schema);
    let done = push_frame(log, &goodbye);
    drop(goodbye);
    done?;
    log.push('\n')
}

/// Appends the readings of all rows, and the frame of a goodbye.
pub fn tell(alloc: Global, schema: &Schema, log: &mut String) -> Result<(), AllocError>
    requires { IsSound schema.now }
{
    for row in PACKETS.lines() {
        if let Some((digits, _)) = row.split_once(": ") {
            push_row(alloc, schema, digits, log)?;
        }
    }
    push_goodbye(alloc, schema, log)
}

#[test]
fn packets_of_an_end(rt: HostRuntime) -> Result<(), Fail> {
    let found = told_of_schema(rt.alloc(), SchemaCase::Packets)?;
    check(&rt, found.as_str(), PACKETS);
    Ok(())
}
