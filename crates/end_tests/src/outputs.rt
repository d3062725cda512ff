//! Tests of the output of an end: its lines, its packets and its outbox.
ghost use Rattle.std.specs.Prelude.{◌≡◌, ◌≤◌, IsSome, OnOk};

use super::checks::{check, frame, push_digits, what_text};
use super::parts::{Case, told};
use super::schemas::{ASK, TOP};
use end_parts::{EndOutput, Packet};
use history::History;
use ipdl_base::{Body, Line, Message, Side, Values, What};
use std::alloc::{AllocError, Global};
use std::test::Fail;

/// Appends a packet by its bytes.
fn push_packet(log: &mut String, packet: &Packet) -> Result<(), AllocError> {
    match packet {
        Packet::Bytes(frame) => push_digits(log, frame.as_slice()),
        Packet::Broken => log.push_str("broken"),
    }
}

/// Takes the next packet, if there is one, and appends it.
fn push_next(log: &mut String, out: &mut EndOutput) -> Result<(), AllocError> {
    match out.take_packet() {
        None => Ok(()),
        Some(packet) => {
            let done = push_packet(log, &packet);
            drop(packet);
            done?;
            log.push(' ')
        }
    }
}

/// Takes the packets that are left, and appends them.
fn push_packets(log: &mut String, out: &mut EndOutput) -> Result<(), AllocError> {
    for _ in 0..9 {
        push_next(log, out)?;
    }
    Ok(())
}

/// Drains the lines that are left, and appends their kinds.
pub fn push_lines(alloc: Global, log: &mut String, out: &mut EndOutput) -> Result<(), AllocError> {
    let mut history = History::new(alloc);
    let done = push_drained(log, out, &mut history);
    drop(history);
    done
}

fn push_drained(
    log: &mut String,
    out: &mut EndOutput,
    history: &mut History,
) -> Result<(), AllocError> {
    out.drain(history)?;
    for line in history.lines() {
        log.push_str(what_text(&line.what))?;
        log.push(' ')?;
    }
    Ok(())
}

/// Puts a request without values, of this frame, into the outbox.
fn push_lazy(alloc: Global, out: &mut EndOutput, seq: i32, digits: &str) -> Result<(), AllocError>
    ensures packets { OnOk result (out.new.packet_spare ≡ out.old.packet_spare) }
    ensures goodbye { OnOk result (out.new.goodbye ≡ out.old.goodbye) }
{
    out.reserve_lazy()?;
    let frame = frame(alloc, digits)?;
    let request = Message {
        route: TOP,
        number: ASK,
        seq,
        transaction: 0,
        made: 0,
        body: Body::Request(Values::Nothing),
    };
    out.push_lazy(request, frame);
    Ok(())
}

/// Puts two lazy requests one after the other, one by a flush and one by a packet, and appends the
/// number that waited for the flush.
fn put_two(alloc: Global, out: &mut EndOutput) -> Result<usize, AllocError> {
    push_lazy(alloc, out, 1, "01")?;
    out.reserve(0, 2)?;
    let waiting = out.waiting();
    out.flush();
    push_lazy(alloc, out, 2, "02")?;
    out.reserve(0, 2)?;
    let packet = Packet::Bytes(frame(alloc, "03")?);
    out.put(packet);
    Ok(waiting)
}

/// Two lazy requests, and a packet after them.
pub fn two_lazy_requests(
    alloc: Global,
    out: &mut EndOutput,
    log: &mut String,
) -> Result<(), AllocError> {
    let waiting = put_two(alloc, out)?;
    write!(log, "{waiting}, ")?;
    push_packets(log, out)?;
    write!(log, ", {}", out.waiting())
}

/// The outbox of a draining end is dropped, and the last packet is its goodbye.
pub fn goodbye(alloc: Global, out: &mut EndOutput, log: &mut String) -> Result<(), AllocError>
    requires room { 1 ≤ out.old.packet_spare }
    requires there { IsSome out.old.goodbye }
{
    push_lazy(alloc, out, 1, "01")?;
    out.drop_outbox();
    out.put_goodbye();
    push_packets(log, out)
}

/// Prints a line, owes others and puts a mark, and appends the loss of room.
fn say_line(out: &mut EndOutput) -> Result<usize, AllocError> {
    out.reserve(4, 0)?;
    let before = out.line_spare();
    out.push_line(Line {
        side: Side::Parent,
        what: What::Close,
    });
    out.owe(2);
    out.pay(1);
    let after = out.line_spare();
    out.put_mark(true);
    out.put_mark(false);
    Ok(before.saturating_sub(after))
}

/// A line that is owed and printed, and a mark.
pub fn line_and_mark(
    alloc: Global,
    out: &mut EndOutput,
    log: &mut String,
) -> Result<(), AllocError> {
    let said = say_line(out)?;
    write!(log, "{said}, ")?;
    push_packets(log, out)?;
    log.push_str(", ")?;
    push_lines(alloc, log, out)
}

#[test]
fn output_of_an_end(rt: HostRuntime) -> Result<(), Fail> {
    let cases = [Case::TwoLazyRequests, Case::Goodbye, Case::LineAndMark];
    let found = told(rt.alloc(), &cases)?;
    check(
        &rt,
        found.as_str(),
        "1, 01 02 03 , 0\n99 \n1, broken , close \n",
    );
    Ok(())
}
