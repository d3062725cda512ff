//! The words for what the calls of an end return.
use channel_core::{EndState, Named, Top};
use ipdl_base::SendRefusal;

/// The word of a refusal.
pub fn refusal_word(refusal: SendRefusal) -> &'static str {
    match refusal {
        SendRefusal::Closed => "Closed",
        SendRefusal::DeadActor => "DeadActor",
        SendRefusal::NestedInNormal => "NestedInNormal",
        SendRefusal::InsideCpow => "InsideCpow",
        SendRefusal::LevelTooLow => "LevelTooLow",
        SendRefusal::TooDeep => "TooDeep",
        SendRefusal::TooLarge => "TooLarge",
        SendRefusal::InCall => "InCall",
        SendRefusal::DeadValue => "DeadValue",
    }
}

/// The word of an end's state.
pub fn state_word(state: EndState) -> &'static str {
    match state {
        EndState::Open => "open",
        EndState::Draining => "draining",
        EndState::Closed => "closed",
        EndState::Dead => "dead",
    }
}

/// The word of the frame on top.
pub fn top_word(top: Top) -> &'static str {
    match top {
        Top::Empty => "empty",
        Top::Dispatch => "dispatch",
        Top::Unanswered => "unanswered",
        Top::Answered => "answered",
    }
}

/// What a name holds, as words.
pub fn named_word(named: &Named) -> &'static str {
    match named {
        Named::Nothing => "nothing",
        Named::Actor(_) => "actor",
        Named::Resolver(_) => "resolver",
    }
}
