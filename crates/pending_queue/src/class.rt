//! The classes of items by how they are deferred, and the likenesses of requests.
ghost use Rattle.std.specs.Prelude.{◌≡◌};
ghost use Rattle.linked_lists.specs.Links.{no_ends};
ghost use Rattle.pending_queue.specs.declared.class.Class.{Class as OfClass};
ghost use Rattle.pending_queue.specs.Classes.{class_of, likeness_of, ends_at, with_ends, defers_class};

use crate::deferral_context::DeferralContext;
use crate::item::Item;
use ipdl_base::{Body, Level};
use linked_lists::Ends;

/// What decides whether an item is deferred.
#[derive(Clone, Copy)]
pub(crate) enum Class {
    /// An async request below the level `InsideCpow`, or the reply to one: deferred while anything
    /// is awaited.
    Asynchronous,
    /// A sync request of the level `Not`: deferred by its transaction, while that level is awaited.
    SyncNot,
    /// A sync request of the level `InsideSync`: deferred by its transaction, while that level is
    /// awaited.
    SyncInside,
    /// A request of the level `InsideCpow`: never deferred.
    Highest,
    /// A goodbye, a mark, or the reply to a sync request: never deferred.
    Closing,
}

/// What requests that are alike share: their type and their route.
#[derive(Clone, Copy, PartialEq, Eq, Hash, Drop)]
pub(crate) struct Likeness {
    pub(crate) number: u32,
    pub(crate) route: i32,
}

/// The ends of the list of each class.
#[derive(Clone, Copy, Drop)]
pub(crate) struct Classes {
    pub(crate) asynchronous: Ends,
    pub(crate) sync_not: Ends,
    pub(crate) sync_inside: Ends,
    pub(crate) highest: Ends,
    pub(crate) closing: Ends,
}

/// Returns the class of an item.
pub(crate) fn class_of(item: &Item) -> Class
    ensures { result ≡ class_of item.now }
{
    match item {
        Item::Broken => Class::Closing,
        Item::Message {
            message,
            sync,
            level,
        } => match &message.body {
            Body::Request(_) => match (*sync, *level) {
                (_, Level::InsideCpow) => Class::Highest,
                (false, _) => Class::Asynchronous,
                (true, Level::Not) => Class::SyncNot,
                (true, Level::InsideSync) => Class::SyncInside,
            },
            Body::Reply(_) | Body::Fault(_) => {
                if *sync {
                    Class::Closing
                } else {
                    Class::Asynchronous
                }
            }
            Body::Goodbye => Class::Closing,
        },
    }
}

/// Returns the likeness of an item, if it is a request.
pub(crate) fn likeness_of(item: &Item) -> Option<Likeness>
    ensures { result ≡ likeness_of item.now }
{
    match item {
        Item::Broken => None,
        Item::Message { message, .. } => match &message.body {
            Body::Request(_) => Some(Likeness {
                number: message.number,
                route: message.route,
            }),
            Body::Reply(_) | Body::Fault(_) | Body::Goodbye => None,
        },
    }
}

impl Classes {
    /// Returns the ends of empty lists.
    pub(crate) fn none() -> Classes
        ensures { (class : OfClass) → ends_at result class ≡ no_ends }
    {
        Classes {
            asynchronous: Ends::none(),
            sync_not: Ends::none(),
            sync_inside: Ends::none(),
            highest: Ends::none(),
            closing: Ends::none(),
        }
    }

    /// Returns the ends of the list of a class.
    pub(crate) fn ends(&self, class: Class) -> Ends
        ensures { result ≡ ends_at self.now class }
    {
        match class {
            Class::Asynchronous => self.asynchronous,
            Class::SyncNot => self.sync_not,
            Class::SyncInside => self.sync_inside,
            Class::Highest => self.highest,
            Class::Closing => self.closing,
        }
    }

    /// Stores the ends of the list of a class.
    pub(crate) fn set(&mut self, class: Class, ends: Ends)
        ensures { self.new ≡ with_ends class ends self.old }
    {
        match class {
            Class::Asynchronous => self.asynchronous = ends,
            Class::SyncNot => self.sync_not = ends,
            Class::SyncInside => self.sync_inside = ends,
            Class::Highest => self.highest = ends,
            Class::Closing => self.closing = ends,
        }
    }
}

/// Whether all items of a class are deferred, whatever their transaction.
pub(crate) fn defers_class(holding: &DeferralContext, class: Class) -> bool
    ensures { result ≡ defers_class holding.now.level class }
{
    match (holding.level, class) {
        (None, _) => false,
        (Some(_), Class::Asynchronous) => true,
        (Some(Level::Not), Class::SyncNot) => false,
        (Some(_), Class::SyncNot) => true,
        (Some(Level::InsideCpow), Class::SyncInside) => true,
        (Some(_), _) => false,
    }
}
