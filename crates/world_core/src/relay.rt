//! Runs both ends of a run separately (docs/relay.md).
ghost use Rattle.std.specs.Prelude.{◌≡◌, None};
ghost use Rattle.world_core.specs.HalfSteps.{next_of};
ghost use Rattle.world_core.specs.Relaying.{AreFacing, BothApart, BothInEach, FacingEach, IsRelayed, IsRelayedByTurns, RelayGives, RelayTurnGives, SideTurnGives, TurnsGive, own_progress, turn_answer};
ghost use Rattle.world_core.specs.WorldView.{WorldView, opening_of};
ghost use Rattle.world_core.specs.declared.answers.RunAnswer.{RunAnswer as OfRunAnswer};
ghost use Rattle.world_core.specs.declared.relay.Halves.{Halves as OfHalves};

use crate::answers::{AcceptAnswer, RunAnswer, StepAnswer};
use crate::driver::OneThread;
use crate::half::Half;
use crate::world::World;
use history::History;
use ipdl_base::Side;

/// The lines of both ends of a run, separately.
#[derive(Drop)]
pub struct Halves {
    pub parent: History,
    pub child: History,
}

/// Runs both ends of a world separately, until neither has a step or a packet left.
pub trait Relay {
    /// Relates the world handed in, the halves, and the answer.
    ghost Gives: { Self → WorldView → OfHalves → OfRunAnswer → Type 0 };

    /// Whether the relay may run.
    ghost ready: { Self → Type 0 };

    fn run_queues<'s>(&mut self, world: World<'s>) -> (Halves, RunAnswer)
        requires ready { ready self.old }
        requires opening { world ≡ opening_of world.setting }
        ensures gives { RelayGives (Gives self.old) world.entry result.0 result.1 }
        ensures relayed { IsRelayed world.entry.setting result.0 result.1 };
}

impl Relay for OneThread {
    ghost Gives = { λ d before halves answer. IsRelayedByTurns before.setting halves answer };

    ghost ready = { λ d. Unit {0} };

    fn run_queues<'s>(&mut self, world: World<'s>) -> (Halves, RunAnswer) {
        let (mut parent, mut child) = world.into_halves();
        let answer = take_turns(&mut parent, &mut child);
        let halves = Halves {
            parent: parent.into_lines(),
            child: child.into_lines(),
        };
        (halves, answer)
    }
}

/// Makes turns of both halves, the parent first, until two turns in a row do nothing. In its turn a half
/// makes its own step, or else, while its end is open, accepts the next packet that the other hands out.
pub fn take_turns(parent: &mut Half<'_>, child: &mut Half<'_>) -> RunAnswer
    requires { BothApart parent.old child.old }
    ensures { BothInEach parent.old child.old (λ setting state. TurnsGive setting state result parent.new child.new) }
{
    let mut side = Side::Parent;
    let mut left = 2u32;
    while left > 0 {
        let turn = side;
        side = side.other();
        match side_turn(parent, child, turn) {
            StepAnswer::Did => left = 2,
            StepAnswer::Nothing => left -= 1,
            StepAnswer::Spent(at) => return RunAnswer::Spent(at),
            StepAnswer::NoMemory => return RunAnswer::NoMemory,
        }
    }
    RunAnswer::Finished
}

// Makes a turn of a side.
fn side_turn(parent: &mut Half<'_>, child: &mut Half<'_>, side: Side) -> StepAnswer
    requires { BothApart parent.old child.old }
    ensures { BothInEach parent.old child.old (λ setting state. SideTurnGives setting side state result parent.new child.new) }
{
    match side {
        Side::Parent => relay_turn(parent, child),
        Side::Child => relay_turn(child, parent),
    }
}

// Makes a turn of a half, which faces the other half.
fn relay_turn(half: &mut Half<'_>, facing: &mut Half<'_>) -> StepAnswer
    requires { AreFacing half.old facing.old }
    ensures { FacingEach half.old facing.old (λ setting side state. RelayTurnGives setting side state result half.new facing.new) }
{
    match half.go_on() {
        StepAnswer::Nothing => receive(half, facing),
        answer => answer,
    }
}

// Accepts the packet that comes next, if the end is open. The half has no own step.
fn receive(half: &mut Half<'_>, facing: &mut Half<'_>) -> StepAnswer
    requires facing { AreFacing half.old facing.old }
    requires rests { next_of half.old (own_progress half.old) ≡ None }
    ensures { FacingEach half.old facing.old (λ setting side state. RelayTurnGives setting side state result half.new facing.new) }
{
    if !half.is_open() {
        return StepAnswer::Nothing;
    }
    match facing.put() {
        None => StepAnswer::Nothing,
        Some(packet) => turn_answer(half.accept(&packet)),
    }
}

/// Returns what a turn answers, by what a half answers to a packet.
pub fn turn_answer(answer: AcceptAnswer) -> StepAnswer
    ensures { result ≡ turn_answer answer }
{
    match answer {
        AcceptAnswer::Did | AcceptAnswer::Refused => StepAnswer::Did,
        AcceptAnswer::Nothing => StepAnswer::Nothing,
        AcceptAnswer::Spent(side) => StepAnswer::Spent(side),
        AcceptAnswer::NoMemory => StepAnswer::NoMemory,
    }
}
