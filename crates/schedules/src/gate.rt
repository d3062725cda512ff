//! Gates, which a side on a thread of its own passes before each of its steps (docs/threads.md).
use ipdl_base::Side;
use std::sync::atomic::{AtomicU64, Ordering};
use std::thread::yield_now;

/// The most turns that a side waits at a meeting point for the other side.
const MOST_TURNS: u32 = 10_000_000;

/// What a side passes before each of its own steps, in addition to what both sides share.
#[derive(Drop)]
pub enum Gate {
    /// Stops nobody. The program runs with this gate.
    Open,
    /// Stops each side before its first step until the other side has come too. Tests run with this gate: no run on one
    /// thread passes it.
    Meeting(MeetingPoint),
}

/// Where both sides of a run meet before their first steps, with the number of steps of each side so far.
#[derive(Drop)]
pub struct MeetingPoint {
    parent: AtomicU64,
    child: AtomicU64,
    missed: AtomicU64,
}

impl MeetingPoint {
    /// Creates a meeting point to which neither side has come.
    pub fn new() -> MeetingPoint {
        MeetingPoint {
            parent: AtomicU64::new(0),
            child: AtomicU64::new(0),
            missed: AtomicU64::new(0),
        }
    }

    /// Returns the number of steps of a side so far.
    pub fn steps(&self, side: Side) -> u64 {
        self.count(side).load(Ordering::SeqCst)
    }

    /// Returns the number of sides that continued without the other one, after the longest wait.
    pub fn missed(&self) -> u64 {
        self.missed.load(Ordering::SeqCst)
    }

    // Returns the counter of the steps of a side.
    fn count(&self, side: Side) -> &AtomicU64 {
        match side {
            Side::Parent => &self.parent,
            Side::Child => &self.child,
        }
    }

    // Waits until a side has come. If it does not come, counts a miss.
    fn wait_for(&self, side: Side) {
        for _ in 0..MOST_TURNS {
            if self.steps(side) != 0 {
                return;
            }
            yield_now();
        }
        self.missed.fetch_add(1, Ordering::SeqCst);
    }

    // Counts a step of a side. Before its first step the side waits for the other one.
    fn pass(&self, side: Side, step: u32) {
        self.count(side).fetch_add(1, Ordering::SeqCst);
        if step == 1 {
            self.wait_for(side.other());
        }
    }
}

impl Gate {
    /// Passes the gate before step number `step` of a side, from 1. Returns in any case.
    pub fn pass(&self, side: Side, step: u32) {
        match self {
            Gate::Open => {}
            Gate::Meeting(point) => point.pass(side, step),
        }
    }
}
