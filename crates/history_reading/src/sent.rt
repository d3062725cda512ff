//! The packets that an end has sent, with a quick way to a request by its number.
ghost use Rattle.std.specs.Prelude.{◌≡◌, ◌∷◌, ◌++◌, [], OnOk, OnErr, List, option_map};
ghost use Rattle.std.specs.HashMap.{IsUnchanged};
ghost use Rattle.history_reading.specs.declared.sent_packet.SentPacket as declared;
ghost use Rattle.history_reading.specs.Views.{AreRequests, InsertsFirst, request_view, sent_view};
ghost use Rattle.history_reading.specs.SentPacket.{request_of};

use crate::sent_packet::{Request, SentPacket};
use std::alloc::{AllocError, Global};
use std::collections::HashMap;
use std::marker::Model;

/// The packets that an end has sent, in their order. Contracts see them as a list. The first
/// request of a number is found quickly.
#[derive(Drop)]
pub struct SentList<'h> {
    all: Vec<SentPacket<'h>>,
    requests: HashMap<i32, Request<'h>>,
}

impl<'h> Model for SentList<'h> {
    ghost use Rattle.std.specs.Prelude.{List};
    ghost use Rattle.std.specs.Coded.{codes};
    ghost use Rattle.ipdl_base.specs.contracts.value.Values as values;
    ghost use Rattle.history_reading.specs.declared.sent_packet.SentPacket.{SentPacket};
    ghost use Rattle.history_reading.specs.Views.{AreRequests};

    ghost Value = { List SentPacket };

    ghost coded = { Prim.hlevel (codes, values.the_row.coded) };

    ghost view = { λ a. a.all.items };

    ghost invariant = { λ a. AreRequests a.all.items a.requests };
}

impl<'h> SentList<'h> {
    /// Returns a list without packets. Takes no memory.
    pub fn new(alloc: Global) -> SentList<'h>
        ensures { result ≡ [] }
    {
        SentList {
            all: Vec::new(alloc),
            requests: HashMap::new(alloc),
        }
    }

    /// Appends a packet.
    pub fn push(&mut self, told: SentPacket<'h>) -> Result<(), AllocError>
        ensures { OnOk result (self.new ≡ self.old ++ told.entry ∷ []) }
    {
        self.all.reserve(1)?;
        note_request(&mut self.requests, &told)?;
        if self.all.push(told).is_err() {
            unreachable!();
        }
        Ok(())
    }

    /// Returns the packets, the oldest first.
    pub fn as_slice(&self) -> &[SentPacket<'h>]
        ensures { result.now ≡ self.now }
    {
        self.all.as_slice()
    }

    /// Returns the first request of a number.
    pub fn request(&self, n: i32) -> Option<Request<'h>>
        ensures { option_map request_view result ≡ request_of (sent_view self.now) n }
    {
        self.requests.get(&n).copied()
    }
}

/// Adds a request to a map that has no request of its number.
fn insert_first<'h>(
    requests: &mut HashMap<i32, Request<'h>>,
    request: &Request<'h>,
) -> Result<(), AllocError>
    ensures ok { OnOk result (InsertsFirst requests.old requests.new request.now) }
    ensures err { OnErr result (IsUnchanged requests.old requests.new) }
{
    if requests.get(&request.seq).is_none() {
        requests.insert(request.seq, *request)?;
    }
    Ok(())
}

/// Adds the request that a packet is to a map that has no request of its number.
fn note_request<'h>(
    requests: &mut HashMap<i32, Request<'h>>,
    told: &SentPacket<'h>,
) -> Result<(), AllocError>
    ensures ok { OnOk result ((all : List declared.SentPacket) → AreRequests all requests.old → AreRequests (all ++ told.now ∷ []) requests.new) }
    ensures err { OnErr result (IsUnchanged requests.old requests.new) }
{
    match told {
        SentPacket::Request(request) => insert_first(requests, request),
        _ => Ok(()),
    }
}
