//! The rules on a single message.

ghost use Rattle.std.specs.Prelude.{◌≡◌, ◌↔◌, OnOk, IsTrue};
ghost use Rattle.std.specs.List.{Any};
ghost use Rattle.findings.specs.Gains.{Gains};
ghost use Rattle.name_table.specs.Kinds.{IsKindOf};
ghost use Rattle.message_rules.specs.Breaches.{rule_of, Breaks, IsFoundBy, IsFoundOf};
ghost use Rattle.message_rules.specs.Messages.{IsToChild, IsPlainAsync, IsPlainSyncToChild, IsAsyncInsideSync, IsInsideCpowToChild, IsStronger, IsBadCompress, IsBadLazy, IsBadMaker};

use ipdl_base::{Compress, Direction, Finding, Level, Rule, Semantics};
use ipdl_syntax::{MessageDecl, ProtocolDecl};
use name_table::{MessageKind, Strength, compress_of, is_lazy, message_level};
use std::alloc::AllocError;

/// The most messages that a protocol may have.
const MOST: usize = 32768;

/// A rule that a message can break, by what the message does.
#[derive(Clone, Copy)]
pub enum MessageBreach {
    /// The protocol has at least 32,768 messages before this one.
    TooMany,
    /// The message is sync, of level `not`, and may be sent by the parent.
    PlainSyncToChild,
    /// The message is of level `inside_sync` and async.
    AsyncInsideSync,
    /// The message is of level `inside_cpow` and may be sent by the parent.
    InsideCpowToChild,
    /// The message does not convert to its protocol.
    Stronger,
    /// The message is compressed and not plain async.
    BadCompress,
    /// The message is a destructor that is sync or has returns, or an async constructor that has
    /// returns.
    BadMaker,
    /// The message is lazy and not plain async.
    BadLazy,
}

/// All breaches.
const BREACHES: [MessageBreach; 8] = [
    MessageBreach::TooMany,
    MessageBreach::PlainSyncToChild,
    MessageBreach::AsyncInsideSync,
    MessageBreach::InsideCpowToChild,
    MessageBreach::Stronger,
    MessageBreach::BadCompress,
    MessageBreach::BadMaker,
    MessageBreach::BadLazy,
];

impl MessageBreach {
    /// Returns the rule that is broken.
    fn rule(self) -> Rule
        ensures { result ≡ rule_of self }
    {
        match self {
            MessageBreach::TooMany => Rule::TOO_MANY_MESSAGES,
            MessageBreach::PlainSyncToChild => Rule::PLAIN_SYNC_TO_CHILD,
            MessageBreach::AsyncInsideSync => Rule::INSIDE_SYNC_NOT_SYNC,
            MessageBreach::InsideCpowToChild => Rule::INSIDE_CPOW_TO_CHILD,
            MessageBreach::Stronger => Rule::STRONGER_MESSAGE,
            MessageBreach::BadCompress => Rule::BAD_COMPRESS,
            MessageBreach::BadMaker => Rule::BAD_CONSTRUCTOR,
            MessageBreach::BadLazy => Rule::BAD_LAZY_SEND,
        }
    }
}

/// Returns whether the child may receive the message.
fn is_to_child(message: &MessageDecl) -> bool
    ensures { IsTrue result ↔ IsToChild message.now }
{
    match message.direction {
        Direction::Parent => false,
        Direction::Child | Direction::Both => true,
    }
}

/// Returns whether the message is sync, of level `not`, and may be sent by the parent.
fn is_plain_sync_to_child(message: &MessageDecl) -> bool
    ensures { IsTrue result ↔ IsPlainSyncToChild message.now }
{
    message.semantics == Semantics::Sync
        && message_level(message) == Level::Not
        && is_to_child(message)
}

/// Returns whether the message is of level `inside_sync` and async.
fn is_async_inside_sync(message: &MessageDecl) -> bool
    ensures { IsTrue result ↔ IsAsyncInsideSync message.now }
{
    message_level(message) == Level::InsideSync && message.semantics == Semantics::Async
}

/// Returns whether the message is of level `inside_cpow` and may be sent by the parent.
fn is_inside_cpow_to_child(message: &MessageDecl) -> bool
    ensures { IsTrue result ↔ IsInsideCpowToChild message.now }
{
    message_level(message) == Level::InsideCpow && is_to_child(message)
}

/// Returns whether the message does not convert to its protocol.
fn is_stronger(protocol: &ProtocolDecl, message: &MessageDecl) -> bool
    ensures { IsTrue result ↔ IsStronger protocol.now message.now }
{
    !Strength::of_message(message).converts_to(Strength::of_protocol(protocol))
}

/// Returns whether the message, which is of this kind, is async and neither a constructor nor a
/// destructor.
fn is_plain_async(protocol: &ProtocolDecl, message: &MessageDecl, kind: MessageKind) -> bool
    requires { IsKindOf protocol.now message.now kind }
    ensures { IsTrue result ↔ IsPlainAsync protocol.now message.now }
{
    message.semantics == Semantics::Async && kind == MessageKind::Normal
}

/// Returns whether the message, which is of this kind, is compressed and not plain async.
fn is_bad_compress(protocol: &ProtocolDecl, message: &MessageDecl, kind: MessageKind) -> bool
    requires { IsKindOf protocol.now message.now kind }
    ensures { IsTrue result ↔ IsBadCompress protocol.now message.now }
{
    compress_of(message) != Compress::Plain && !is_plain_async(protocol, message, kind)
}

/// Returns whether the message, which is of this kind, is lazy and not plain async.
fn is_bad_lazy(protocol: &ProtocolDecl, message: &MessageDecl, kind: MessageKind) -> bool
    requires { IsKindOf protocol.now message.now kind }
    ensures { IsTrue result ↔ IsBadLazy protocol.now message.now }
{
    is_lazy(message) && !is_plain_async(protocol, message, kind)
}

/// Returns whether the message, which is of this kind, is a destructor that is sync or has returns,
/// or an async constructor that has returns.
fn is_bad_maker(protocol: &ProtocolDecl, message: &MessageDecl, kind: MessageKind) -> bool
    requires { IsKindOf protocol.now message.now kind }
    ensures { IsTrue result ↔ IsBadMaker protocol.now message.now }
{
    match kind {
        MessageKind::Normal => false,
        MessageKind::Destructor => {
            message.semantics == Semantics::Sync || message.returns.is_some()
        }
        MessageKind::Constructor => {
            message.semantics == Semantics::Async && message.returns.is_some()
        }
    }
}

/// Returns whether the message at an index of its protocol, which is of this kind, breaks this rule.
fn breaks(
    breach: MessageBreach,
    protocol: &ProtocolDecl,
    index: usize,
    message: &MessageDecl,
    kind: MessageKind,
) -> bool
    requires { IsKindOf protocol.now message.now kind }
    ensures { IsTrue result ↔ Breaks breach protocol.now index message.now }
{
    match breach {
        MessageBreach::TooMany => MOST <= index,
        MessageBreach::PlainSyncToChild => is_plain_sync_to_child(message),
        MessageBreach::AsyncInsideSync => is_async_inside_sync(message),
        MessageBreach::InsideCpowToChild => is_inside_cpow_to_child(message),
        MessageBreach::Stronger => is_stronger(protocol, message),
        MessageBreach::BadCompress => is_bad_compress(protocol, message, kind),
        MessageBreach::BadMaker => is_bad_maker(protocol, message, kind),
        MessageBreach::BadLazy => is_bad_lazy(protocol, message, kind),
    }
}

/// Adds a finding if the message breaks this rule.
fn add_breach(
    breach: MessageBreach,
    protocol: &ProtocolDecl,
    index: usize,
    message: &MessageDecl,
    kind: MessageKind,
    found: &mut Vec<Finding>,
) -> Result<(), AllocError>
    requires { IsKindOf protocol.now message.now kind }
    ensures { OnOk result (Gains (λ f. IsFoundBy protocol.now f index message.now breach) found.old.items found.new.items) }
{
    if breaks(breach, protocol, index, message, kind) {
        found.push(Finding {
            place: message.place,
            rule: breach.rule(),
        })?;
    }
    Ok(())
}

/// Adds the findings of the message at an index of its protocol, which is of this kind.
pub fn add_of_message(
    protocol: &ProtocolDecl,
    index: usize,
    message: &MessageDecl,
    kind: MessageKind,
    found: &mut Vec<Finding>,
) -> Result<(), AllocError>
    requires { IsKindOf protocol.now message.now kind }
    ensures { OnOk result (Gains (λ f. IsFoundOf protocol.now f index message.now) found.old.items found.new.items) }
{
    for breach in BREACHES {
        add_breach(breach, protocol, index, message, kind, found)?;
    }
    Ok(())
}
