//! What is on the table that two threads share, what its seats know, and the steps on it.

ghost use Rattle.std.specs.Prelude.{List};
ghost use Rattle.std.specs.Coded.{codes};
ghost use Rattle.ipdl_base.specs.contracts.schema.Shape as shape;
ghost use Rattle.ipdl_base.specs.contracts.value.Values as values;
ghost use Rattle.ipdl_base.specs.declared.line.Line.{Line};
ghost use Rattle.handler_script.specs.contracts.term.Terms as terms;
ghost use Rattle.script_steps.specs.Choices.{Setting};

use atomic_table::{Join, Play, Split, TableRule};
use std::marker::Model;
use std::snapshot::Snapshot;
use world_core::{Half, Link};

/// The state of a side when it gave the link back.
#[derive(Clone, Copy)]
pub enum SideState {
    /// The side has a step of its own to make.
    Busy,
    /// The side has no step of its own, and a packet may be delivered to it.
    Resting,
    /// The side has no step of its own, and no packet is delivered to it any more.
    Shut,
}

/// The link, and the state that each side reported when it last held it.
#[derive(Drop)]
pub struct SharedLink {
    pub(crate) link: Link,
    pub(crate) parent: SideState,
    pub(crate) child: SideState,
    /// Whether a side gave up: memory ran out, or it had something left to do but had reached its limit
    /// of events, or the other side did not begin.
    pub(crate) over: bool,
}

/// What a seat knows: which sides it belongs to, whether it holds the link, what the run is about, and
/// the lines that each side has seen. No value of this type is made.
pub struct SeatView {
    /// Whether the seat belongs to the parent.
    pub parent: bool,
    /// Whether the seat belongs to the child.
    pub child: bool,
    /// Whether the seat holds the link.
    pub holds: bool,
    pub ghost setting: { Setting } by { Prim.hlevel (codes, values.the_row.coded, shape.the_row.coded, terms.the_row.coded) },
    pub ghost parent_seen: { List Line } by { Prim.hlevel (codes, values.the_row.coded) },
    pub ghost child_seen: { List Line } by { Prim.hlevel (codes, values.the_row.coded) },
}

impl Model for SeatView {
    ghost use base.Fml.{ftrue};

    ghost also_owns = { λ _. ftrue };
}

/// What a table is about: a run, given by one of its halves, and the link as it was. Has no bytes.
#[derive(Drop)]
pub struct Topic<'s> {
    pub(crate) half: Snapshot<Half<'s>>,
    pub(crate) link: Snapshot<Link>,
}

/// The rule of the table.
pub struct LinkRule;

impl<'s> TableRule<Option<SharedLink>, SeatView, Topic<'s>> for LinkRule {
    ghost use Rattle.thread_link.specs.LinkRule.{IsLawful};
    ghost use Rattle.thread_link.specs.Steps.{first_view};
    ghost use Rattle.world_core.specs.HalfView.{setting_of};

    ghost holds = { λ topic. IsLawful (setting_of topic.half.value) };

    ghost first = { λ topic. first_view (setting_of topic.half.value) topic.link.value.lines };
}

/// Takes the link if no side holds it.
pub struct Lock;

impl Play<Option<SharedLink>, SeatView> for Lock {
    ghost use Rattle.thread_link.specs.Steps.{Locked};

    ghost then = { Locked };
}

/// Gives the link back.
pub struct Release;

impl Play<Option<SharedLink>, SeatView> for Release {
    ghost use Rattle.thread_link.specs.Steps.{Released};

    ghost then = { Released };
}

/// Counts a turn.
pub struct Count;

impl Play<Option<SharedLink>, SeatView> for Count {
    ghost use Rattle.thread_link.specs.Steps.{Unchanged};

    ghost then = { Unchanged };
}

/// Splits a seat of both sides into one for each side.
pub struct Parting;

impl Split<SeatView> for Parting {
    ghost use Rattle.thread_link.specs.Steps.{parent_part, child_part};

    ghost left = { parent_part };

    ghost right = { child_part };
}

/// Joins the seats of both sides for good.
pub struct Reunion;

impl Join<SeatView> for Reunion {
    ghost use Rattle.thread_link.specs.Steps.{spent_view, whole_view};

    ghost both = { whole_view };

    ghost spent = { spent_view };
}
