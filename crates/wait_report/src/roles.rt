//! Which messages may be waited for, and which may be handled meanwhile.
ghost use Rattle.std.specs.Prelude.{◌≡◌, ◌++◌, IfOk, OnOk};
ghost use Rattle.wait_report.specs.Listed as listed;
ghost use Rattle.wait_report.specs.Pairs.{may_wait, may_interrupt};

use crate::known::LeastValues;
use crate::least::can_send;
use ipdl_base::{Level, MessageRow, ProtocolRow, Semantics, Side};
use std::alloc::{AllocError, Global};

/// The role of a message in a pair.
#[derive(Clone, Copy)]
pub enum Role {
    /// The message whose reply is waited for.
    Waits,
    /// The message that is handled meanwhile.
    Takes,
}

/// Returns whether an end of a side may handle another request while it waits for the reply to this message.
fn may_wait(side: Side, row: &MessageRow) -> bool
    ensures { result ≡ may_wait side row.now }
{
    match side {
        Side::Parent => { Side::Parent.sends(row.direction) && row.semantics == Semantics::Sync }
        Side::Child => {
            Side::Child.sends(row.direction)
                && row.semantics == Semantics::Sync
                && row.level != Level::InsideCpow
        }
    }
}

/// Returns whether an end of a side may handle this message while it waits.
fn may_interrupt(side: Side, row: &MessageRow) -> bool
    ensures { result ≡ may_interrupt side row.now }
{
    let inside = row.semantics == Semantics::Sync && row.level == Level::InsideSync;
    match side {
        Side::Parent => {
            Side::Child.sends(row.direction) && (row.level == Level::InsideCpow || inside)
        }
        Side::Child => Side::Parent.sends(row.direction) && inside,
    }
}

impl Role {
    /// Returns whether a message may have the role at the end of a side.
    fn suits(self, side: Side, row: &MessageRow) -> bool
        ensures { result ≡ listed.plays self side row.now }
    {
        match self {
            Role::Waits => may_wait(side, row),
            Role::Takes => may_interrupt(side, row),
        }
    }
}

/// Adds the numbers of the messages that have a role at the end of a side and can be sent.
fn add_numbers(
    rows: &[MessageRow],
    known: &LeastValues,
    role: Role,
    side: Side,
    numbers: &mut Vec<u32>,
) -> Result<(), AllocError>
    ensures { OnOk result (numbers.new.items ≡ numbers.old.items ++ listed.numbers_in known.now.types.items known.now.built.items role side rows.now) }
{
    for row in rows {
        if role.suits(side, row) && can_send(row, known.types.as_slice(), known.built.as_slice()) {
            numbers.push(row.number)?;
        }
    }
    Ok(())
}

/// Returns the numbers of the messages that have a role at the end of a side and can be sent.
pub fn numbers_of(
    alloc: Global,
    protocols: &[ProtocolRow],
    known: &LeastValues,
    role: Role,
    side: Side,
) -> Result<Vec<u32>, AllocError>
    ensures { IfOk result (λ numbers. numbers.items ≡ listed.numbers_of known.now.types.items known.now.built.items role side protocols.now) }
{
    let mut numbers = Vec::new(alloc);
    for protocol in protocols {
        add_numbers(
            protocol.messages.as_slice(),
            known,
            role,
            side,
            &mut numbers,
        )?;
    }
    Ok(numbers)
}
