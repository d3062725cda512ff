//! The link of a run on a table that two threads share, and the turns in which a side holds it.

ghost use Rattle.std.specs.Prelude.{◌≡◌, ◌⊎◌, ◌∷◌, [], IfOk, IfErr, Some};
ghost use Rattle.ipdl_base.specs.declared.kinds.Side.{Side as EndSide};
ghost use Rattle.ipdl_base.specs.declared.kinds.Side.TheVariants as sides;
ghost use Rattle.script_steps.specs.Choices.{Setting};
ghost use Rattle.thread_link.specs.Fronts.{HasSeen};
ghost use Rattle.thread_link.specs.Meetings.{MeetsShared};
ghost use Rattle.thread_link.specs.Passes.{Belongs, about, seen};
ghost use Rattle.thread_link.specs.Work.{HasWorked, MayWork};
ghost use Rattle.world_core.specs.HalfView.{setting_of};
ghost use Rattle.world_core.specs.Halves.{IsHome};

use crate::parts::{Parting, Reunion, SharedLink, SideState, Topic};
use crate::pass::{Exchange, LinkTable, Pass};
use crate::turns::{count, free_word, give, take};
use atomic_table::Refused;
use ipdl_base::Side;
use std::alloc::{AllocFailed, Global};
use std::snapshot::Snapshot;
use std::sync::Wait;
use world_core::{Half, Link, MeetAnswer, halves_fit_after_more};

/// There was no memory for an exchange. The error returns the link.
#[derive(Drop)]
pub enum OpenFault {
    /// Memory ran out. Contains the link.
    NoMemory(Link),
}

/// The result of a turn in which a side held the link.
#[derive(Drop)]
pub struct LinkTurn {
    /// What the meeting of the half with the link returned.
    pub answer: MeetAnswer,
    /// Whether neither side has anything left to do, or a side has given up.
    pub ended: bool,
    /// Whether the half has no step of its own left.
    pub rests: bool,
    /// How many turns of both sides have been counted, including this one.
    pub turns: u64,
}

// Returns the shared form of a link about which neither side has reported anything.
fn untouched(link: Link) -> SharedLink
    ensures { result.link ≡ link }
{
    SharedLink {
        link,
        parent: SideState::Busy,
        child: SideState::Busy,
        over: false,
    }
}

// Returns the link without the reports of the sides.
fn link_of(shared: SharedLink) -> Link
    ensures { result ≡ shared.link }
{
    let SharedLink {
        link,
        parent: _,
        child: _,
        over: _,
    } = shared;
    link
}

// Returns one slot, with the link in it.
fn only_slot(alloc: Global, shared: SharedLink) -> Result<Vec<Option<SharedLink>>, SharedLink>
    ensures ok { IfOk result (λ slots. slots.items ≡ Some shared ∷ []) }
    ensures err { IfErr result (λ back. back ≡ shared) }
{
    let mut slots = Vec::new(alloc);
    match slots.push(Some(shared)) {
        Ok(()) => Ok(slots),
        Err(failed) => {
            let AllocFailed { value } = failed;
            let Some(shared) = value else { unreachable!() };
            Err(shared)
        }
    }
}

// Returns what the table of a run is about.
fn topic_of<'s>(half: &Half<'s>, link: &Link) -> Topic<'s>
    ensures half { result.half.value ≡ half.entry.now }
    ensures link { result.link.value ≡ link.now }
{
    Topic {
        half: Snapshot::of(half),
        link: Snapshot::of(link),
    }
}

// Returns the state of a half.
fn state_of(half: &Half<'_>) -> SideState {
    if !half.rests() {
        SideState::Busy
    } else if half.is_open() {
        SideState::Resting
    } else {
        SideState::Shut
    }
}

impl SharedLink {
    // Records the state of a side, and whether it gives up.
    fn tell(&mut self, side: Side, state: SideState, gives_up: bool)
        ensures { self.new.link ≡ self.old.link }
    {
        match side {
            Side::Parent => self.parent = state,
            Side::Child => self.child = state,
        }
        self.over = self.over || gives_up;
    }

    // Returns whether a side in this state has nothing left to do.
    fn is_done(&self, side: Side, state: SideState) -> bool {
        match state {
            SideState::Busy => false,
            SideState::Resting => self.link.left(side) == 0,
            SideState::Shut => true,
        }
    }

    // Returns whether neither side has anything left to do, or one of them gave up.
    fn is_ended(&self) -> bool {
        self.over
            || (self.is_done(Side::Parent, self.parent) && self.is_done(Side::Child, self.child))
    }
}

impl<'s> Exchange<'s> {
    /// Opens an exchange of the link of a run, with a pass for the parent and one for the child, which
    /// have seen its history. The run is that of the half. Fails only if memory runs out; the error
    /// returns the link.
    pub fn open(
        alloc: Global,
        half: &Half<'s>,
        link: Link,
    ) -> Result<(Exchange<'s>, Pass, Pass), OpenFault>
        requires home { IsHome (setting_of half.now) link }
        ensures about { IfOk result (λ opened. about opened.0 ≡ setting_of half.entry.now) }
        ensures parent { IfOk result (λ opened. Belongs opened.0 opened.1 × (opened.1.side ≡ sides.Parent) × (seen opened.1 ≡ link.lines)) }
        ensures child { IfOk result (λ opened. Belongs opened.0 opened.2 × (opened.2.side ≡ sides.Child) × (seen opened.2 ≡ link.lines)) }
        ensures back { IfErr result (λ fault. fault ≡ OpenFault.NoMemory link) }
    {
        let word = free_word(link.lines());
        let topic = topic_of(half, &link);
        let slots = match only_slot(alloc, untouched(link)) {
            Ok(slots) => slots,
            Err(shared) => return Err(OpenFault::NoMemory(link_of(shared))),
        };
        match LinkTable::new(alloc, &[word, 0], slots, &topic) {
            Ok((table, mut parent)) => {
                let child = table.shared.split_seat::<Parting>(&mut parent);
                Ok((
                    Exchange { table },
                    Pass {
                        side: Side::Parent,
                        seat: parent,
                    },
                    Pass {
                        side: Side::Child,
                        seat: child,
                    },
                ))
            }
            Err(refused) => {
                let Refused { mut slots } = refused;
                let Some(Some(shared)) = slots.pop() else {
                    unreachable!()
                };
                Err(OpenFault::NoMemory(link_of(shared)))
            }
        }
    }

    /// Counts the turn with which a side begins, and wakes the other side if it waits for that. The
    /// link does not move, and the side sees nothing new.
    pub(crate) fn begin(&self, pass: &mut Pass)
        requires { Belongs self.now pass.old }
        ensures belongs { Belongs self.now pass.new }
        ensures side { pass.new.side ≡ pass.old.side }
        ensures seen { seen pass.new ≡ seen pass.old }
    {
        count(&self.table.shared, &mut pass.seat);
        self.table.shared.wake_one(1);
    }

    /// Takes the link, lets the half meet it once, and gives it back. May wait for the link. A side
    /// that gives up ends the work of both.
    pub(crate) fn turn<R: Wait>(
        &self,
        rt: &R,
        pass: &mut Pass,
        half: &mut Half<'_>,
        gives_up: bool,
    ) -> LinkTurn
        ghost at: { Setting × EndSide }
        requires at { at ≡ (about self.now, pass.old.side) }
        requires may { MayWork self.now pass.old half.old }
        ensures meets { MeetsShared (about self.now) pass.old.side (seen pass.old) half.old result.answer (seen pass.new) half.new }
        ensures worked { HasWorked self.now pass.old pass.new half.new }
    {
        let side = pass.side;
        let board = &self.table.shared;
        let mut shared = take(rt, board, &mut pass.seat, side);
        halves_fit_after_more();
        let answer = half.meet(&mut shared.link);
        let rests = half.rests();
        let given_up = gives_up || !matches!(answer, MeetAnswer::Moved(_));
        shared.tell(side, state_of(half), given_up);
        let ended = shared.is_ended();
        let turns = give(board, &mut pass.seat, side, shared);
        LinkTurn {
            answer,
            ended,
            rests,
            turns,
        }
    }

    /// Lets the half meet the shared link once. May wait for the link. The answers are those of
    /// `Half::meet`.
    pub fn meet<R: Wait>(&self, rt: &R, pass: &mut Pass, half: &mut Half<'_>) -> MeetAnswer
        requires { MayWork self.now pass.old half.old }
        ensures meets { MeetsShared (about self.now) pass.old.side (seen pass.old) half.old result (seen pass.new) half.new }
        ensures worked { HasWorked self.now pass.old pass.new half.new }
    {
        self.turn(rt, pass, half, false).answer
    }

    /// Closes the exchange and returns the link. Its history is the longer of those that the two passes
    /// have seen. Takes no memory.
    pub fn close(self, parent: Pass, child: Pass) -> Link
        requires parent { Belongs self parent × (parent.side ≡ sides.Parent) }
        requires child { Belongs self child × (child.side ≡ sides.Child) }
        ensures home { IsHome (about self.entry) result }
        ensures parent_seen { HasSeen sides.Parent (seen parent) result.lines }
        ensures child_seen { HasSeen sides.Child (seen child) result.lines }
        ensures longer { (result.lines ≡ seen parent) ⊎ (result.lines ≡ seen child) }
    {
        let Exchange { table } = self;
        let Pass {
            side: _,
            seat: mut both,
        } = parent;
        let Pass { side: _, seat } = child;
        table.shared.join_seat::<Reunion>(&mut both, seat);
        let mut closed = table.close_with(both);
        let Some(shared) = closed.take(0) else {
            unreachable!()
        };
        closed.free();
        link_of(shared)
    }
}
